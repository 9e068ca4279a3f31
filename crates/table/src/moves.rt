// Where a row stands among the rows of a table, and where one belongs. The first n rows are the table's; n goes along,
// since of a slice of the table's rows that is lent on the check forgets what the rows were.

ghost use Rattle.std.specs.Prelude.{◌≡◌, ◌+◌, ◌-◌, ◌<◌, ◌≤◌, length, take, nat_le};
ghost use Rattle.std.specs.List.{insert, remove, position, prefix_len};
ghost use Rattle.table.specs.Count.{put};
ghost use Rattle.table.specs.Keyed.{of};

use super::Row;

// The first place where the key stands.
pub fn place_of<R: Row>(rows: &[R], key: R::Key) -> Option<usize>
    ensures { result ≡ position (of R.same R.key_of key) rows.now }
{
    rows.iter().position(|r| r.has_key(&key))
}

// Puts a row among the first n, which are then n + 1, behind those of no higher rank.
pub fn put_in<R: Row>(rows: &mut [R], n: usize, row: R)
    requires { n < length rows.old }
    ensures { take (n + 1) rows.new ≡ put R.rank_of row (take n rows.old) }
{
    let place = rank_place(&rows[..n], row.rank());
    open(rows, n, place, row);
}

// How many rows stand before the first of a higher rank.
fn rank_place<R: Row>(rows: &[R], rank: u32) -> usize
    ensures inside { result ≤ length rows.now }
    ensures front { result ≡ prefix_len (λ r. nat_le (R.rank_of r) rank) rows.now }
{
    rows.iter().take_while(|r| r.rank() <= rank).count()
}

// Takes the row at i out of the first n, which are then n - 1.
pub fn close<R: Copy>(rows: &mut [R], n: usize, i: usize)
    requires { (n ≤ length rows.old) × (i < n) }
    ensures { take (n - 1) rows.new ≡ remove (take n rows.old) i }
{
    rows[i..n].rotate_left(1);
}

// Puts a row at i of the first n, which are then n + 1.
fn open<R: Copy>(rows: &mut [R], n: usize, i: usize, row: R)
    requires { (n < length rows.old) × (i ≤ n) }
    ensures { take (n + 1) rows.new ≡ insert (take n rows.old) i row }
{
    rows[n] = row;
    rows[i..=n].rotate_right(1);
}
