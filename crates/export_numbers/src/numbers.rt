// A request and its reply as they cross to C, each a row of 32-bit numbers of its own length.
ghost use Rattle.std.specs.Prelude.{ℕ, List, ◌≡◌, get_or, length, IfNone, IfSome};
ghost use Rattle.layout.specs.Decides.{Decides};
ghost use Rattle.export_numbers.specs.Numbers.{Lengths, Fitting, Unfit, told, number_row};

use values::refusal::{DONE, Refusal};

// An answer as a row of numbers, its fields in their order; the first is its code.
pub trait Tells {
    // How many numbers.
    const LENGTH: usize;

    ghost LENGTH: { ℕ };

    ghost numbers: { Self → List ℕ };

    // Writes them.
    fn put(self, reply: &mut [u32])
        requires { length reply.old ≡ LENGTH }
        ensures { reply.new ≡ numbers self };
}

// What a thing that was done gives, as numbers after the code.
pub trait Told: Sized {
    // How many numbers, the code among them.
    const LENGTH: usize;

    ghost LENGTH: { ℕ };

    ghost nothing: { Self };

    ghost numbers: { ℕ → Self → List ℕ };

    // What stands after the code of a refusal.
    fn nothing() -> Self
        ensures { result ≡ nothing };

    // Writes the code and them.
    fn put_row(self, code: u32, reply: &mut [u32])
        requires { length reply.old ≡ LENGTH }
        ensures { reply.new ≡ numbers code self };
}

// 0 and what is given, or the refusal's number and nothing after it.
impl<T: Told> Tells for Result<T, Refusal> {
    const LENGTH: usize = T::LENGTH;

    ghost LENGTH = { T.LENGTH };

    ghost numbers = { told T.numbers T.nothing };

    fn put(self, reply: &mut [u32]) {
        match self {
            Ok(given) => given.put_row(DONE, reply),
            Err(refusal) => T::nothing().put_row(u32::from(refusal), reply),
        }
    }
}

// A question that is answered by one number.
impl Told for u32 {
    const LENGTH: usize = 2;

    ghost LENGTH = { 2 };

    ghost nothing = { 0 };

    ghost numbers = { number_row };

    fn nothing() -> u32 {
        0
    }

    fn put_row(self, code: u32, reply: &mut [u32]) {
        reply.copy_from_slice(&[code, self]);
    }
}

// What is asked by a row of numbers.
pub trait Asks {
    type Answer: Tells;

    // How many numbers.
    const LENGTH: usize;

    ghost LENGTH: { ℕ };

    ghost meant: { List ℕ → Self };

    // Reads them.
    fn of_numbers(request: &[u32]) -> Self
        requires { length request.now ≡ LENGTH }
        ensures { result ≡ meant request.now };
}

// A request and a reply have the lengths that they are to have.
pub fn fits(request: usize, asks: usize, reply: usize, tells: usize) -> bool
    ensures { Decides (Lengths asks tells request reply) result }
{
    request == asks && reply == tells
}

// What a request's numbers ask; none, where it or the reply has another length.
pub fn asked<Q: Asks>(request: &[u32], reply: &[u32]) -> Option<Q>
    ensures fits { IfSome result (λ q. Fitting Q.LENGTH Q.Answer.LENGTH request.now reply.now) }
    ensures meant { IfSome result (λ q. q ≡ Q.meant request.now) }
    ensures unfit { IfNone result (Fitting Q.LENGTH Q.Answer.LENGTH request.now reply.now → ⊥) }
{
    let tells = <Q::Answer as Tells>::LENGTH;
    if fits(request.len(), Q::LENGTH, reply.len(), tells) {
        return Some(Q::of_numbers(request));
    }
    None
}

// Writes an answer's numbers, and answers with the first.
pub fn tell<A: Tells>(answer: A, reply: &mut [u32]) -> u32
    requires { length reply.old ≡ A.LENGTH }
    ensures numbers { reply.new ≡ A.numbers answer }
    ensures code { result ≡ get_or reply.new 0 0 }
{
    answer.put(reply);
    reply.first().copied().unwrap_or(0)
}

// The answer where they have not, the store looked at first.
pub fn unfit(bytes: &[u8], links: &[u16], words: &[u32]) -> u32
    ensures { Unfit bytes.now links.now words.now result }
{
    if kernel_check::check(bytes, links, words) {
        return u32::from(Refusal::OutOfRange);
    }
    u32::from(Refusal::IllFormed)
}
