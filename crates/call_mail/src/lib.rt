// Messages between processes, after the fee and with the capability found: send puts one into a box, receive takes the
// oldest out of the caller's. A box is four places, oldest first; message m of object o has slot 4 o + m.
#![tactic(auto)]

pub mod from_box;
pub mod to_box;
