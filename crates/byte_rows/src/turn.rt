// The table turned: rows into columns, by perfect shuffles, which vectorise.
ghost use Rattle.std.specs.Prelude.{◌≡◌, ◌+◌, ◌*◌, ◌≤◌};
ghost use Rattle.byte_rows.specs.Turn.{Turned};

// The two halves of 2 * half entries from the place from on, one entry of each in turn, at the place to.
fn shuffle(u: &mut [u8; 256], to: usize, t: &[u8; 256], from: usize, half: usize)
    requires { (to + 2 * half ≤ 256) × (from + 2 * half ≤ 256) }
    ensures { Turned to from 2 half t.now u.new }
{
    // By places: over pairs of chunks_mut and the two halves no place would be counted, but of a pair that is lent back a proof knows the
    // length alone, not which entries it got.
    for i in 0..half {
        u[to + 2 * i] = t[from + i];
        u[to + 2 * i + 1] = t[from + half + i];
    }
}

// 16 rows of N, from the table's start on, into rows of 16 from the place to on.
pub(crate) fn turn<const N: usize>(t: &mut [u8; 256], to: usize)
    requires { (N ≤ 16) × (to + 16 * N ≤ 256) }
    ensures { Turned to 0 16 N t.old t.new }
{
    let mut u = [0u8; 256];
    let mut v = [0u8; 256];
    shuffle(&mut u, 0, t, 0, 8 * N);
    shuffle(&mut v, 0, &u, 0, 8 * N);
    shuffle(&mut u, 0, &v, 0, 8 * N);
    shuffle(t, to, &u, 0, 8 * N);
}

// The rows 4 to 11, which are the taps p3 to q3, into 16 rows of 8 at the table's start. Beside `turn`, since each shuffle doubles the
// rows that are turned: 8 rows take three, and the 16 of `turn` four.
pub(crate) fn turn_middle_back(t: &mut [u8; 256])
    ensures { Turned 0 64 8 16 t.old t.new }
{
    let mut u = [0u8; 256];
    let mut v = [0u8; 256];
    shuffle(&mut u, 0, t, 64, 64);
    shuffle(&mut v, 0, &u, 0, 64);
    shuffle(t, 0, &v, 0, 64);
}
