// The free questions.
ghost use Rattle.export_questions.specs.Told.{WindowTold, CountTold, LendTold};

// The window of a capability presented by a caller, under READ: 6 numbers of a request, 3 of the reply. Where either slice
// has another length, nothing is written, and it is 1 on a store that is not well formed, else 2.
#[unsafe(no_mangle)]
pub extern "C" fn store_window(
    bytes: &[u8],
    links: &[u16],
    words: &[u32],
    request: &[u32],
    reply: &mut [u32],
) -> u32
    ensures { WindowTold bytes.now links.now words.now request.now result
        reply.old reply.new }
{
    export_questions::window_by_numbers(bytes, links, words, request, reply)
}

// How many passwords, presented by a process for an object, would get past 5 and 6 for a right: 5 numbers of a request, 2 of the
// reply. Lengths as above.
#[unsafe(no_mangle)]
pub extern "C" fn password_count(
    bytes: &[u8],
    links: &[u16],
    words: &[u32],
    request: &[u32],
    reply: &mut [u32],
) -> u32
    ensures { CountTold bytes.now links.now words.now request.now result
        reply.old reply.new }
{
    export_questions::count_by_numbers(bytes, links, words, request, reply)
}

// From which capability of a list the caller can lend what it wishes: the list, 4 numbers of each entry, 7 of a request, 2 of the
// reply. Lengths of the last two as above; a list of any other length is 2.
#[unsafe(no_mangle)]
pub extern "C" fn lend_place(
    bytes: &[u8],
    links: &[u16],
    words: &[u32],
    list: &[u32],
    request: &[u32],
    reply: &mut [u32],
) -> u32
    ensures { LendTold bytes.now links.now words.now list.now
        request.now result reply.old reply.new }
{
    export_questions::lend_by_numbers(bytes, links, words, list, request, reply)
}
