// The page on which charts stand, one below the other.
ghost use Rattle.std.specs.Prelude.{◌≡◌};
ghost use Rattle.crew_io.specs.Puts.{Puts};
ghost use Rattle.plan_chart.specs.Pages.{empty_end, page_end, page_head};

use crew_io::put::put_all;
use crew_io::sink::{Sink, WriteFault};

/// How a page begins, up to where the first chart may stand: what its charts look like, and what tells it.
pub const PAGE_HEAD: &[u8] = b"<!DOCTYPE html>
<html lang='en'><head><meta charset='utf-8'><title>Plan</title><style>
@page{margin:8mm}
body{font:14px sans-serif;margin:16px;color:#000;background:#fff}
h2{font-size:17px;margin:20px 0 4px}
p{margin:4px 0}
section{break-inside:avoid}
div{overflow-x:auto}
text{font:5px sans-serif;fill:#000}
.shift{fill:#e4ebf2}
path.hour{stroke:#b4bec8;stroke-width:.3}
text.hour{text-anchor:middle}
.link{fill:none;stroke:#333;stroke-width:.6}
.single rect,.joint rect{stroke:#222;stroke-width:1}
.single rect{fill:#fff}
.joint.c0 rect{fill:#f0b040}
.joint.c1 rect{fill:#8cc8f0}
.joint.c2 rect{fill:#40b890}
.joint.c3 rect{fill:#f4e860}
.joint.c4 rect{fill:#7098d8}
.joint.c5 rect{fill:#f08858}
.joint.c6 rect{fill:#dca0c4}
.single rect.way,.joint rect.way{fill:#555;stroke:none}
.single rect.mark,.joint rect.mark{fill:#000;stroke:none}
.single rect.fixed,.joint rect.fixed{fill:url(#fixed)}
.open rect{fill:#fff;stroke:#222;stroke-width:.6;stroke-dasharray:2 1}
@media print{body{margin:0}svg{width:auto;height:auto;max-width:100%;max-height:85vh}}
</style></head><body>
<svg width='0' height='0' style='position:absolute'><defs><pattern id='fixed' width='4' height='4' patternUnits='userSpaceOnUse'><path d='M0 4L4 0' stroke='#444' stroke-width='.4'/></pattern></defs></svg>
<p>A row is a team: pale is its shift, a box is a job from its start to its end, and the thin line before it is the way there. Boxes of one colour with a line between them are one job of several teams. Hatched is what is fixed; a black edge marks what is not as it was in the round before. Rows below are tasks left open: from when each may begin first to when it may end last, and how many teams it wants.</p>";

/// What stands on a page without a chart.
pub const NO_CHART: &[u8] = b"\n<p>No good dossier came in: there is no plan to draw.</p>";

/// How a page ends.
pub const PAGE_END: &[u8] = b"\n</body></html>\n";

/// Writes how a page begins. After a fault, a front of it was written.
pub fn put_page_head<K: Sink>(out: &mut K) -> Result<(), WriteFault>
    ensures { Puts K.Sink page_head out.old out.new result }
{
    put_all(out, PAGE_HEAD)
}

/// How a page without a chart ends.
fn put_empty_end<K: Sink>(out: &mut K) -> Result<(), WriteFault>
    ensures { Puts K.Sink empty_end out.old out.new result }
{
    put_all(out, NO_CHART)?;
    put_all(out, PAGE_END)
}

/// Writes how a page of so many charts ends. After a fault, a front of it was written.
pub fn put_page_end<K: Sink>(out: &mut K, charts: u64) -> Result<(), WriteFault>
    ensures { Puts K.Sink (page_end charts) out.old out.new result }
{
    if charts == 0 {
        put_empty_end(out)
    } else {
        put_all(out, PAGE_END)
    }
}
