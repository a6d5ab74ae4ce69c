// rename_obj after the fee and with the capability found: "11 not a master; 12 p1 is taken in the object, the old master's
// own included. All capabilities end; a new master has the old one's moneyword, window and rights." It is put into the old
// one's record.
#![tactic(auto)]

ghost use Rattle.values.specs.Words.{password_of};
ghost use Rattle.call_rename.specs.Runs.{RenewAsks, Renews, RenameAsks, Renames};

use call_prune::below::prune_below;
use call_prune::scratch::clear;
use call_steps::objects::name_at;
use call_steps::request::{Given, Reply};
use call_steps::taken::p1_taken;
use layout::{OWNER, P1, P2, PARENT};
use values::refusal::Refusal;

// All below k end, and its record holds the new master: only the password differs.
#[tactic(auto, using(crate::proofs::Stops::cap_high))]
fn renew(links: &mut [u16], words: &mut [u32], scratch: &mut [u16], k: usize, drawn: [u32; 2])
    requires { RenewAsks links.old words.old k }
    ensures { Renews links.old words.old scratch.old k (password_of drawn)
        links.new words.new scratch.new }
{
    prune_below(links, k);
    words[P1 + k] = drawn[0];
    words[P2 + k] = drawn[1];
    clear(scratch);
}

// The object that the capability in slot k is for.
#[tactic(auto, using(crate::proofs::Stops::cap_high))]
pub fn rename_obj(
    bytes: &[u8],
    links: &mut [u16],
    words: &mut [u32],
    scratch: &mut [u16],
    k: usize,
    drawn: [u32; 2],
) -> Reply
    requires { RenameAsks bytes.now links.old words.old k }
    ensures { Renames bytes.now links.old words.old scratch.old k
        (password_of drawn) result links.new words.new scratch.new }
{
    if links[PARENT + k] != 0 {
        return Err(Refusal::NotMaster);
    }
    let o = usize::from(links[OWNER + k]);
    if p1_taken(links, words, o, drawn[0]) {
        return Err(Refusal::Taken);
    }
    let name = name_at(bytes, links, o);
    renew(links, words, scratch, k, drawn);
    Ok(Given::hands_back(name, drawn))
}
