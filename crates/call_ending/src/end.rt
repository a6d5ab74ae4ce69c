// An object ends.
ghost use Rattle.call_ending.specs.Ended.{EndAsks, EndsObject};

use crate::blocks::give_blocks;
use crate::forfeit::to_house;
use crate::free::free_object;
use crate::object::unlink;
use call_prune::free::free_cap;

// The object in slot o, with its master m: its money goes to the house, and its blocks and records are free.
pub fn end_object(bytes: &[u8], links: &mut [u16], words: &mut [u32], o: usize, m: usize)
    requires { EndAsks bytes.now links.old words.old o m }
    ensures { EndsObject bytes.now links.old words.old o m
        links.new words.new }
{
    to_house(bytes, words, o, m);
    give_blocks(links, o);
    unlink(links, o);
    free_object(links, o);
    free_cap(links, m);
}
