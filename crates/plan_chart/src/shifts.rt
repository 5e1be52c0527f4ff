// The shifts of the teams, a row each, and the hours.
ghost use Rattle.std.specs.Prelude.{◌≡◌, ◌≤◌, ◌<◌, ◌+◌, ◌*◌, length};
ghost use Rattle.crew_terms.specs.declared.TheConstants.{LAST_MINUTE};
ghost use Rattle.crew_io.specs.Puts.{Puts};
ghost use Rattle.plan_chart.specs.Rows.{row_top as row_top_of};
ghost use Rattle.plan_chart.specs.RowTexts.{band_of, hour_line, shift_of, shift_row, shift_times};

use crate::rows::{clock, row_top};
use crew_instance::Instance;
use crew_io::sink::{Sink, WriteFault};
use crew_terms::Team;
use each_out::{Piece, Writes, put_pieces};

/// The name of a team on the left of its row, of which this is the top, and its shift as a band, which tells the team.
fn put_band<K: Sink>(out: &mut K, left: u32, top: u64, team: &Team) -> Result<(), WriteFault>
    ensures { Puts K.Sink (band_of left top team.now) out.old out.new result }
{
    let minutes = team.until.saturating_sub(team.from);
    put_pieces(
        out,
        &[
            Piece::Text(b"\n<text x='"),
            Piece::Number(left as u64),
            Piece::Text(b"' dx='-58' y='"),
            Piece::Number(top),
            Piece::Text(b"' dy='8'>"),
            Piece::Text(team.name.bytes()),
            Piece::Text(b"</text><rect class='shift' x='"),
            Piece::Number(team.from as u64),
            Piece::Text(b"' y='"),
            Piece::Number(top),
            Piece::Text(b"' width='"),
            Piece::Number(minutes as u64),
            Piece::Text(b"' height='11'><title>"),
            Piece::Text(team.name.bytes()),
            Piece::Text(b", "),
        ],
    )
}

/// When a shift begins and ends.
fn put_times<K: Sink>(out: &mut K, team: &Team) -> Result<(), WriteFault>
    requires from { team.now.from ≤ LAST_MINUTE }
    requires until { team.now.until ≤ LAST_MINUTE }
    ensures { Puts K.Sink (shift_times team.now) out.old out.new result }
{
    let from = clock(team.from);
    let until = clock(team.until);
    put_pieces(
        out,
        &[
            Piece::Text(&from),
            Piece::Text(b" to "),
            Piece::Text(&until),
            Piece::Text(b"</title></rect>"),
        ],
    )
}

/// The row of a team, of which this is the top: its name on the left, and its shift as a band.
fn put_shift<K: Sink>(out: &mut K, left: u32, top: u64, team: &Team) -> Result<(), WriteFault>
    requires from { team.now.from ≤ LAST_MINUTE }
    requires until { team.now.until ≤ LAST_MINUTE }
    ensures { Puts K.Sink (shift_of left top team.now) out.old out.new result }
{
    put_band(out, left, top, team)?;
    put_times(out, team)
}

/// The rows of the teams: for each its name on the left and its shift, from the minute at which it begins and as wide as its
/// minutes.
#[derive(Drop)]
pub struct Shifts<'a> {
    /// The teams.
    pub instance: &'a Instance,
    /// The first minute of the chart.
    pub left: u32,
}

impl Writes<u32> for Shifts<'_> {
    ghost text = { λ s k. shift_row s.instance.now s.left k };

    ghost has_text = { λ s k. k < length s.instance.now.teams };

    fn write<K: Sink>(&self, out: &mut K, item: &u32) -> Result<(), WriteFault> {
        put_shift(out, self.left, row_top(*item), self.instance.team(*item))
    }
}

/// A thin line for each hour, from this one on, down to the bottom of the chart, with what a clock shows then above it.
#[derive(Drop)]
pub struct HourLines {
    /// The first hour.
    pub first: u32,
    /// How high the chart is.
    pub bottom: u64,
}

impl Writes<u32> for HourLines {
    ghost text = { λ s k. hour_line s.bottom ((s.first + k) * 60) };

    ghost has_text = { λ s k. (s.first + k) * 60 ≤ LAST_MINUTE };

    fn write<K: Sink>(&self, out: &mut K, item: &u32) -> Result<(), WriteFault> {
        let minute = (self.first + *item) * 60;
        let at = clock(minute);
        put_pieces(
            out,
            &[
                Piece::Text(b"\n<path class='hour' d='M"),
                Piece::Number(minute as u64),
                Piece::Text(b" 12V"),
                Piece::Number(self.bottom),
                Piece::Text(b"'/><text class='hour' x='"),
                Piece::Number(minute as u64),
                Piece::Text(b"' y='8'>"),
                Piece::Text(&at),
                Piece::Text(b"</text>"),
            ],
        )
    }
}
