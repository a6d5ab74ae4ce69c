// How a pick asks its question and makes its read: on any store, which both check, or on one that is known to be well formed.
ghost use Rattle.std.specs.Prelude.{List, ℕ, []};
ghost use Rattle.layout.specs.WellFormed.{WellFormed};
ghost use Rattle.kernel_step.specs.Slices.{slices};
ghost use Rattle.kernel_call.specs.Calls.{Calls};
ghost use Rattle.question_window.specs.Asks.{Asks};

use call_steps::request::{Capability, Name, Reply, Request};
use kernel_call::call;
use kernel_step::step;
use question_window::{ask_window, window_of};
use values::refusal::Refusal;
use values::window::Window;

pub(crate) trait Access {
    // The stores that it is for, by their three slices.
    ghost serves: { List ℕ → List ℕ → List ℕ → Type 0 };

    // The window question.
    fn ask(
        bytes: &[u8],
        links: &[u16],
        words: &[u32],
        caller: Name,
        x: Capability,
    ) -> Result<Window, Refusal>
        requires { serves bytes.now links.now words.now }
        ensures { Asks bytes.now links.now words.now caller x result };

    // A call that brings no text and lends no scratch.
    fn call(
        bytes: &mut [u8],
        links: &mut [u16],
        words: &mut [u32],
        buffer: &mut [u8],
        req: Request,
    ) -> Reply
        requires { serves bytes.old links.old words.old }
        ensures { Calls req [] result
            (slices bytes.old links.old words.old buffer.old [])
            (slices bytes.new links.new words.new buffer.new []) };
}

// Any store.
pub(crate) struct Checked;

impl Access for Checked {
    ghost serves = { λ bytes links words. Unit {0} };

    fn ask(
        bytes: &[u8],
        links: &[u16],
        words: &[u32],
        caller: Name,
        x: Capability,
    ) -> Result<Window, Refusal> {
        ask_window(bytes, links, words, caller, x)
    }

    fn call(
        bytes: &mut [u8],
        links: &mut [u16],
        words: &mut [u32],
        buffer: &mut [u8],
        req: Request,
    ) -> Reply {
        call(bytes, links, words, b"", buffer, &mut [], req)
    }
}

// A well-formed store.
pub(crate) struct Unchecked;

impl Access for Unchecked {
    ghost serves = { WellFormed };

    fn ask(
        bytes: &[u8],
        links: &[u16],
        words: &[u32],
        caller: Name,
        x: Capability,
    ) -> Result<Window, Refusal> {
        window_of(bytes, links, words, caller, x)
    }

    fn call(
        bytes: &mut [u8],
        links: &mut [u16],
        words: &mut [u32],
        buffer: &mut [u8],
        req: Request,
    ) -> Reply {
        step(bytes, links, words, b"", buffer, &mut [], req)
    }
}
