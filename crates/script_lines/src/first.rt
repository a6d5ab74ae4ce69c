// A script's first line.
ghost use Rattle.script_lines.specs.First.{FirstIs};

use crate::fits::nth;

// "Line one is supply, p1, p2".
#[derive(Clone, Copy)]
pub struct First {
    pub supply: u32,
    pub password: [u32; 2],
}

// A line one of three numbers; any other is bad, and its error says the first three, 0 for one that it lacks.
pub fn first_line(numbers: &[u32]) -> Result<First, First>
    ensures { FirstIs numbers.now result }
{
    let first = First {
        supply: nth(numbers, 0),
        password: [nth(numbers, 1), nth(numbers, 2)],
    };
    if numbers.len() != 3 {
        return Err(first);
    }
    Ok(first)
}
