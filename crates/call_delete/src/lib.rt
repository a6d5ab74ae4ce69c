// "delete_cap: no more. The capability and all its descendants end. With a master the object ends too; its moneyword,
// cash and box sums go to the house."
#![tactic(auto)]

ghost use Rattle.call_delete.specs.Runs.{DeleteAsks, MasterAsks, MasterEnds, Deletes};

use call_ending::end::end_object;
use call_prune::below::prune_below;
use call_prune::delete::delete_child;
use call_prune::scratch::clear;
use call_steps::request::{Given, Reply};
use layout::{OWNER, PARENT};

// Of a master, in slot k: all below it end, then its object and it.
fn delete_master(bytes: &[u8], links: &mut [u16], words: &mut [u32], k: usize)
    requires { MasterAsks bytes.now links.old words.old k }
    ensures { MasterEnds bytes.now links.old words.old k
        links.new words.new }
{
    let o = usize::from(links[OWNER + k]);
    prune_below(links, k);
    end_object(bytes, links, words, o, k);
}

// The capability in slot k.
pub fn delete_cap(
    bytes: &[u8],
    links: &mut [u16],
    words: &mut [u32],
    scratch: &mut [u16],
    k: usize,
) -> Reply
    requires { DeleteAsks bytes.now links.old words.old k }
    ensures { Deletes bytes.now links.old words.old scratch.old k result
        links.new words.new scratch.new }
{
    clear(scratch);
    if links[PARENT + k] == 0 {
        delete_master(bytes, links, words, k);
    } else {
        delete_child(links, k);
    }
    Ok(Given::done())
}
