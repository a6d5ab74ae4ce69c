// What a script is played in: the three slices of a store, and working room beside them.

// They are lent for as long as the script is played. What is left in the working room between two lines is open.
#[derive(Drop)]
pub struct Workspace<'a> {
    pub bytes: &'a mut [u8],
    pub links: &'a mut [u16],
    pub words: &'a mut [u32],
    // The numbers of a line.
    pub numbers: &'a mut [u32],
    // The bytes that come with a call, its answer's bytes, and its scratch.
    pub text: &'a mut [u8],
    pub buffer: &'a mut [u8],
    pub scratch: &'a mut [u16],
}
