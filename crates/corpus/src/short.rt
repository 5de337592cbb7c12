//! Short drawings: files that are laid out over lanes, each of their lines tested, and bounds on what they show.

use crate::figures::Figures;
use crate::files::read_file;
use crate::readback::test_text;
use crate::run_texts::text_over;
use anyhow::{Result, ensure};
use collector::{Choice, DrawingKind, Form, MemOpener, Style, run_plain};
use std::rt::Files;
use std::sync::Wait;
use std::thread::Threads;

/// JSON lines of short drawings.
pub const SHORT: Style = Style {
    form: Form::Json,
    drawing_kind: DrawingKind::Short,
};

/// How many bytes a read gives at most.
const MOST: usize = 65_536;

/// Over how many lanes each file is read, beside a second one that is the same.
const LANES: [u32; 2] = [1, 3];

/// Of each file the least that drawings of its graphs can be long in all, and how long they are at most, and how many
/// vertices of degree 2 turn at least and at most. Where the two differ, the first is one that LEMON's network simplex
/// finds (`checks/drawings`), and the second what drawings came to. Trees and paths of `copies.pc` can be drawn
/// without a turn, and with edges of length 1.
const BOUNDS: [(&str, u32, u32, u32, u32); 6] = [
    ("copies.pc", 576, 576, 0, 0),
    ("cubic60.pc", 4_027, 4_036, 0, 0),
    ("grid60.pc", 1_740, 1_841, 144, 145),
    ("medial60.pc", 7_104, 7_784, 0, 0),
    ("planar_d4_n8.pc", 29_882, 30_507, 2_796, 2_796),
    ("tree60.pc", 1_180, 1_659, 0, 0),
];

/// Lays a file out twice in one run, over lanes, tests each line, and prints how many graphs and bends there are.
pub fn compare_short<R: Files + Print + AllocGlobal + Threads + Wait + Sync>(
    rt: &R,
    name: &str,
) -> Result<()> {
    let mut files = Vec::with_capacity(rt.alloc(), 2)?;
    files.push(read_file(rt, name)?)?;
    files.push(read_file(rt, name)?)?;
    let opener = MemOpener::new(files, MOST);
    let batch = run_plain(rt.alloc(), &opener, 2, Choice::First)?;
    for lanes in LANES {
        let text = text_over(rt, &opener, 2, lanes, Choice::First, SHORT)?;
        let found = test_text(rt.alloc(), &batch, text.as_slice())?;
        ensure!(is_within(name, found), "{name}: {found:?}, out of bounds");
        let Figures { graphs, bends, .. } = found;
        println!(rt; "{name} twice, lanes={lanes}: {graphs} short drawings with {bends} bends")?;
    }
    Ok(())
}

/// Whether what two copies of a file show is within its bounds.
fn is_within(name: &str, found: Figures) -> bool {
    for (file, least, most, few, many) in BOUNDS {
        if file == name {
            let (length, turning) = (found.length / 2, found.turning / 2);
            return least <= length && length <= most && few <= turning && turning <= many;
        }
    }
    false
}
