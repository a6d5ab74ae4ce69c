// Refusal 8, "not a process".
ghost use Rattle.std.specs.Prelude.{◌≡◌, IfOk};
ghost use Rattle.values.specs.Refusals.{code_of};
ghost use Rattle.layout.specs.Rows.{owner_of};
ghost use Rattle.call_marks.specs.Runs.{MarkAsks, process_stop};

use call_steps::target::target;
use layout::FLAG;
use values::refusal::Refusal;

// The slot of the process that capability k is for.
pub(crate) fn process_of(bytes: &[u8], links: &[u16], k: usize) -> Result<usize, Refusal>
    requires { MarkAsks bytes.now links.now k }
    ensures slot { IfOk result (λ o. o ≡ owner_of links.now k) }
    ensures code { code_of result ≡ process_stop bytes.now links.now k }
{
    let o = target(links, k);
    if bytes[FLAG + o] == 0 {
        return Err(Refusal::NotProcess);
    }
    Ok(o)
}
