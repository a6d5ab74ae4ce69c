// 01, "Fresh store": makes one in three lent slices, whatever they held.
#![tactic(auto)]

mod chain;

ghost use Rattle.std.specs.Prelude.{◌≡◌, length};
ghost use Rattle.layout.specs.Layout as Layout;
ghost use Rattle.values.specs.Words.{password_of};
ghost use Rattle.values.specs.Refusals.{code_of};
ghost use Rattle.kernel_fresh.specs.Slices.{fresh_bytes, free_links, first_links, fresh_links, fresh_words};
ghost use Rattle.kernel_fresh.specs.Fresh.{Fresh};

use layout::{
    BYTES, CASH, FLAG, FREE_BLOCKS, FREE_CAPS, FREE_OBJECTS, LAST_DAY, LINKS, MASTER, NEXT_BLOCK,
    NEXT_CAP, NEXT_OBJECT, OBJECTS, OWNER, P1, P2, RIGHTS, SERIAL, WORDS,
};
use values::limit::{MAX_BLOCKS, MAX_CAPS, MAX_DAY, MAX_OBJECTS, MAX_RIGHTS};
use values::refusal::Refusal;

// The process has the last slot of an object, its master the last slot of a capability: a look-up starts there.
const LAST_OBJECT: u16 = MAX_OBJECTS as u16;

const LAST_CAP: u16 = MAX_CAPS as u16;

const LAST_BLOCK: u16 = MAX_BLOCKS as u16;

const ALL_RIGHTS: u16 = MAX_RIGHTS as u16;

// 02, CR 9, of last days: "A master's is 65,535."
const MASTERS_LAST_DAY: u16 = MAX_DAY as u16;

// The last object is a process, its marks clear, its box empty.
fn fresh_bytes(bytes: &mut [u8])
    requires { length bytes.old ≡ Layout.BYTES }
    ensures { bytes.new ≡ fresh_bytes }
{
    bytes.fill(0);
    bytes[FLAG + MAX_OBJECTS] = 1;
}

// The objects and capabilities before the last are free, and all blocks.
fn free_links(links: &mut [u16])
    requires { length links.old ≡ Layout.LINKS }
    ensures { links.new ≡ free_links links.old }
{
    chain::free_chain(links, FREE_OBJECTS, NEXT_OBJECT, LAST_OBJECT - 1);
    chain::free_chain(links, FREE_CAPS, NEXT_CAP, LAST_CAP - 1);
    chain::free_chain(links, FREE_BLOCKS, NEXT_BLOCK, LAST_BLOCK);
}

// The last object is the only one in the chain of objects, and the last capability, with all rights and a master's last
// day, is its master. The day stays 0.
fn first_links(links: &mut [u16])
    requires { length links.old ≡ Layout.LINKS }
    ensures { links.new ≡ first_links links.old }
{
    links[OBJECTS] = LAST_OBJECT;
    links[MASTER + MAX_OBJECTS] = LAST_CAP;
    links[SERIAL + MAX_OBJECTS] = 1;
    links[OWNER + MAX_CAPS] = LAST_OBJECT;
    links[RIGHTS + MAX_CAPS] = ALL_RIGHTS;
    links[LAST_DAY + MAX_CAPS] = MASTERS_LAST_DAY;
}

fn fresh_links(links: &mut [u16])
    requires { length links.old ≡ Layout.LINKS }
    ensures { links.new ≡ fresh_links }
{
    links.fill(0);
    free_links(links);
    first_links(links);
}

// The supply is the cash of the process, the password that of its master.
fn fresh_words(supply: u32, password: [u32; 2], words: &mut [u32])
    requires { length words.old ≡ Layout.WORDS }
    ensures { words.new ≡ fresh_words supply (password_of password) }
{
    words.fill(0);
    words[CASH + MAX_OBJECTS] = supply;
    words[P1 + MAX_CAPS] = password[0];
    words[P2 + MAX_CAPS] = password[1];
}

// Makes a fresh store. Slices of any other length are refused and not written.
pub fn fresh(
    supply: u32,
    password: [u32; 2],
    bytes: &mut [u8],
    links: &mut [u16],
    words: &mut [u32],
) -> Result<(), Refusal>
    ensures { Fresh supply (password_of password) bytes.old links.old words.old
        bytes.new links.new words.new (code_of result) }
{
    if bytes.len() != BYTES || links.len() != LINKS || words.len() != WORDS {
        return Err(Refusal::IllFormed);
    }
    fresh_bytes(bytes);
    fresh_links(links);
    fresh_words(supply, password, words);
    Ok(())
}
