//! Rows of points.

ghost use Rattle.std.specs.Prelude.{◌≡◌, ◌+◌, ◌&&◌, ℕ, true, nat_lt, length};
ghost use Rattle.rx_graph_bits.specs.Rows as bits;
ghost use Rattle.rx_graph.specs.Tables.{at};
ghost use Rattle.rx_cert_rules.specs.Parts as parts;
ghost use Rattle.rx_cert_rules.specs.Written.{Wide};

use rx_graph_bits::Row;

/// Whether the row of a member has a number.
pub fn has(rows: &[Row], member: usize, number: usize) -> bool
    ensures { result ≡ at rows.now member number }
{
    match rows.get(member) {
        Some(row) => row.holds(number),
        None => false,
    }
}

/// Whether the row of a lifetime has a site, of so many.
pub fn has_site(rows: &[Row], member: usize, site: usize, sites: usize) -> bool
    ensures { result ≡ (nat_lt site sites && at rows.now member site) }
{
    site < sites && has(rows, member, site)
}

/// Whether a copy of one row stays as it is when another is joined to it: so it has all that the other has.
fn stays(scratch: &mut Row, longer: &Row, shorter: &Row) -> bool
    requires longer { length longer.now ≡ length scratch.old }
    requires shorter { length shorter.now ≡ length scratch.old }
    ensures width { length scratch.new ≡ length scratch.old }
    ensures within { result ≡ true → (i : ℕ) → bits.holds shorter.now i ≡ true → bits.holds longer.now i ≡ true }
{
    scratch.assign(longer);
    !scratch.join(shorter)
}

/// Whether it is seen at once, a word at a time, that the row of a member has all that another's has.
fn is_seen(scratch: &mut Row, rows: &[Row], long: usize, short: usize) -> bool
    requires { Wide (length scratch.old) rows.now }
    ensures width { length scratch.new ≡ length scratch.old }
    ensures within { result ≡ true → (i : ℕ) → at rows.now short i ≡ true → at rows.now long i ≡ true }
{
    match rows.get(long) {
        Some(longer) => match rows.get(short) {
            Some(shorter) => stays(scratch, longer, shorter),
            None => false,
        },
        None => false,
    }
}

/// Whether the row of a member has the numbers below a bound that another's has, one by one.
fn is_within(rows: &[Row], long: usize, short: usize, bound: usize) -> bool
    ensures { parts.Tells result (parts.Within rows.now long short bound) }
{
    'numbers: for i in 0..bound {
        if has(rows, short, i) && !has(rows, long, i) {
            return false;
        }
    }
    true
}

/// Whether the row of a member has the numbers below a bound that another's has.
pub fn contains(scratch: &mut Row, rows: &[Row], long: usize, short: usize, bound: usize) -> bool
    requires { Wide (length scratch.old) rows.now }
    ensures width { length scratch.new ≡ length scratch.old }
    ensures within { parts.Tells result (parts.Within rows.now long short bound) }
{
    is_seen(scratch, rows, long, short) || is_within(rows, long, short, bound)
}
