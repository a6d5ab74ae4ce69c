// A field by its slot: the cell of slot i, 1 to n, in the row that starts at off, and 0 at any other i.
ghost use Rattle.std.specs.Prelude.{◌≡◌, ◌+◌, ◌<◌, length};
ghost use Rattle.layout.specs.Rows.{cell_of};

// What a cell of a row holds, and what stands for a slot that the row does not have.
pub trait Cell: Copy {
    ghost NONE: { Self };

    const NONE: Self;
}

impl Cell for u8 {
    ghost NONE = { 0 };

    const NONE: u8 = 0;
}

impl Cell for u16 {
    ghost NONE = { 0 };

    const NONE: u16 = 0;
}

impl Cell for u32 {
    ghost NONE = { 0 };

    const NONE: u32 = 0;
}

pub fn field<T: Cell>(row: &[T], n: usize, off: usize, i: usize) -> T
    requires { off + n < length row.now }
    ensures { result ≡ cell_of T.NONE n off row.now i }
{
    if 1 <= i && i <= n {
        row[off + i]
    } else {
        T::NONE
    }
}
