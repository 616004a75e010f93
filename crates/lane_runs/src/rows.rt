// Rows of samples that are copied from one list to another. That both lists hold them is a clause of each function: it is of the lists,
// which a struct of their places could not lend.
ghost use Rattle.std.specs.Prelude.{◌≡◌, ◌+◌, ◌≤◌, length};
ghost use Rattle.lane_runs.specs.RowCopies.{row_copied, rows_copied, RowsLent};

// Where rows start: row k at the place at + k * apart.
#[derive(Clone, Copy)]
pub struct Places {
    pub at: usize,
    pub apart: usize,
}

// Of 16 rows m, from the row lo on.
#[derive(Clone, Copy)]
pub struct Rows {
    pub lo: usize,
    pub m: usize,
    pub ghost few: { lo + m ≤ 16 },
}

// One by one: copy_from_slice of a length that is no constant calls the C library's memmove, which nothing else in the archive needs.
fn copy_samples<T: Copy>(to: &mut [T], at: usize, from: &[T], place: usize, n: usize)
    requires { (at + n ≤ length to.old) × (place + n ≤ length from.now) }
    ensures { to.new ≡ row_copied from.now place n at to.old }
{
    for k in 0..n {
        to[at + k] = from[place + k];
    }
}

// A row goes through an array of its own, which is known to share no sample with either list, so that it is copied as one vector.
fn copy_row<T: Copy, const N: usize>(to: &mut [T], at: usize, from: &[T], place: usize)
    requires { (at + N ≤ length to.old) × (place + N ≤ length from.now) }
    ensures { to.new ≡ row_copied from.now place N at to.old }
{
    let row = <[T; N]>::try_from(&from[place..place + N]).unwrap();
    to[at..at + N].copy_from_slice(&row);
}

#[tactic(auto, unfolding(crate::specs::RowCopies::rows_copied), using(crate::specs::RowCopiesLaws::rows_more))]
fn copy_rows_of<T: Copy, const N: usize>(
    to: &mut [T],
    into: Places,
    from: &[T],
    out_of: Places,
    rows: Rows,
)
    requires { RowsLent into.at into.apart N rows.lo rows.m (length to.old) × RowsLent out_of.at out_of.apart N rows.lo rows.m (length from.now) }
    ensures { to.new ≡ rows_copied from.now out_of.at out_of.apart into.at into.apart N rows.lo rows.m to.old }
{
    // By row numbers: rows lie apart by a stride, so that a chunk of chunks_mut would be more than a row, and of what it lends back a
    // proof knows the length alone, not the samples.
    for k in rows.lo..rows.lo + rows.m {
        copy_row::<T, N>(
            to,
            into.at + k * into.apart,
            from,
            out_of.at + k * out_of.apart,
        );
    }
}

// A length that is no constant, which is rare: no array can have it.
#[inline(never)]
#[tactic(auto, unfolding(crate::specs::RowCopies::rows_copied), using(crate::specs::RowCopiesLaws::rows_more))]
fn copy_rows_any<T: Copy>(
    to: &mut [T],
    into: Places,
    from: &[T],
    out_of: Places,
    n: usize,
    rows: Rows,
)
    requires { RowsLent into.at into.apart n rows.lo rows.m (length to.old) × RowsLent out_of.at out_of.apart n rows.lo rows.m (length from.now) }
    ensures { to.new ≡ rows_copied from.now out_of.at out_of.apart into.at into.apart n rows.lo rows.m to.old }
{
    // By row numbers, since a chunk of chunks_mut is more than a row, and only its length is known when it is lent back.
    for k in rows.lo..rows.lo + rows.m {
        copy_samples(
            to,
            into.at + k * into.apart,
            from,
            out_of.at + k * out_of.apart,
            n,
        );
    }
}

// Rows of n samples. The lengths of whole cells are constants, which are copied as vectors.
pub fn copy_rows_unchecked<T: Copy>(
    to: &mut [T],
    into: Places,
    from: &[T],
    out_of: Places,
    n: usize,
    rows: Rows,
)
    requires { RowsLent into.at into.apart n rows.lo rows.m (length to.old) × RowsLent out_of.at out_of.apart n rows.lo rows.m (length from.now) }
    ensures { to.new ≡ rows_copied from.now out_of.at out_of.apart into.at into.apart n rows.lo rows.m to.old }
{
    match n {
        16 => copy_rows_of::<T, 16>(to, into, from, out_of, rows),
        12 => copy_rows_of::<T, 12>(to, into, from, out_of, rows),
        8 => copy_rows_of::<T, 8>(to, into, from, out_of, rows),
        4 => copy_rows_of::<T, 4>(to, into, from, out_of, rows),
        _ => copy_rows_any(to, into, from, out_of, n, rows),
    }
}
