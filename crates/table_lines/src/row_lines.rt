// The table program's lines, but for the brackets.
ghost use Rattle.std.specs.Prelude.{◌+◌, ◌*◌, ◌≤◌, length};
ghost use Rattle.write.specs.Writes.{HasRoom, AtMost, Writes};
ghost use Rattle.runlength.specs.Scale.{units_per_one};
ghost use Rattle.runlength.specs.Chain.{cdf_of};
ghost use Rattle.table_lines.specs.RowLine.{standings_line, standings_room, header_line, header_room, row_line, row_room, table_rows};
ghost use Rattle.table_lines.specs.RowLine.{arl_line, arl_room};

use write::Writer;

// The line `standings,N`.
#[tactic(auto, using(write::proofs::FieldLaws::field_short))]
pub fn put_standings(w: &mut Writer, state_count: u32)
    requires { HasRoom w.old standings_room }
    ensures wrote { Writes w.old (standings_line state_count) w.new }
    ensures upper_bound { AtMost w.old standings_room w.new }
{
    w.named(b"standings", state_count as u64);
    w.byte(b'\n');
}

// The line `n,chance,by,left`.
pub(crate) fn put_header(w: &mut Writer)
    requires { HasRoom w.old header_room }
    ensures wrote { Writes w.old header_line w.new }
    ensures upper_bound { AtMost w.old header_room w.new }
{
    w.bytes(b"n,chance,by,left\n");
}

// A row's four numbers.
#[tactic(auto, using(write::proofs::FieldLaws::field_room_lem), unfolding(write::specs::Field::field))]
fn put_row(w: &mut Writer, n: u64, pmf: u64, cdf: u64, survival: u64)
    requires { HasRoom w.old row_room }
    ensures wrote { Writes w.old (row_line n pmf cdf survival) w.new }
    ensures upper_bound { AtMost w.old row_room w.new }
{
    w.number(n);
    w.field(pmf);
    w.field(cdf);
    w.field(survival);
    w.byte(b'\n');
}

// The rows 1 to h, by the chances and what is left; the sum of the chances is at most probability one.
pub(crate) fn put_rows(w: &mut Writer, h: usize, pmf: &[u64], survival: &[u64])
    requires h_in_bounds { HasRoom w.old (row_room * h) }
    requires h_in_bounds_2 { (h ≤ length pmf.now) × (h ≤ length survival.now) }
    requires h_bound { cdf_of pmf.now h ≤ units_per_one }
    ensures wrote { Writes w.old (table_rows h pmf.now survival.now) w.new }
    ensures upper_bound { AtMost w.old (row_room * h) w.new }
{
    let mut cdf = 0;
    for (i, (&chance, &left)) in pmf[..h].iter().zip(&survival[..h]).enumerate() {
        cdf += chance;
        put_row(w, i as u64 + 1, chance, cdf, left);
    }
}

// The line `arl,whole,fraction,shortfall`: the mean, and its error bound.
#[tactic(auto, using(write::proofs::FieldLaws::field_room_lem))]
pub(crate) fn put_arl(w: &mut Writer, whole: u64, fraction: u64, error: u64)
    requires { HasRoom w.old arl_room }
    ensures wrote { Writes w.old (arl_line whole fraction error) w.new }
    ensures upper_bound { AtMost w.old arl_room w.new }
{
    w.named(b"arl", whole);
    w.field(fraction);
    w.field(error);
    w.byte(b'\n');
}
