ghost use Rattle.std.specs.Prelude.{◌≡◌, ◌<◌};
ghost use Rattle.outside.specs.Writers.{Pushes};
ghost use Rattle.tier_core.specs.Classes.{sets_of};
ghost use Rattle.answer_text.specs.Text.{class_text, set_text};

use outside::{OutBuffer, Sink, WriteErr};
use tier_core::Class;

/// The text of the set of symbols that has this number.
fn set_text(set: u8) -> &'static [u8]
    requires { set < 32 }
    ensures { result.now ≡ set_text set }
{
    match set {
        0 => b"{}",
        1 => b"-",
        2 => b"+",
        3 => b"{-+}",
        4 => b"[",
        5 => b"{-[}",
        6 => b"{+[}",
        7 => b"{-+[}",
        8 => b"]",
        9 => b"{-]}",
        10 => b"{+]}",
        11 => b"{-+]}",
        12 => b"{[]}",
        13 => b"{-[]}",
        14 => b"{+[]}",
        15 => b"{-+[]}",
        16 => b"|",
        17 => b"{-|}",
        18 => b"{+|}",
        19 => b"{-+|}",
        20 => b"{[|}",
        21 => b"{-[|}",
        22 => b"{+[|}",
        23 => b"{-+[|}",
        24 => b"{]|}",
        25 => b"{-]|}",
        26 => b"{+]|}",
        27 => b"{-+]|}",
        28 => b"{[]|}",
        29 => b"{-[]|}",
        30 => b"{+[]|}",
        _ => b"{-+[]|}",
    }
}

/// Appends a class, set by set in tier order.
pub fn push_class<O: Sink>(out: &mut OutBuffer, sink: &mut O, class: &Class) -> Result<(), WriteErr>
    ensures { Pushes O.Sink sink.old sink.new out.old out.new
        (class_text (sets_of class.now)) result }
{
    for tier in 0..class.width() {
        out.push(sink, set_text(class.bits(tier)))?;
    }
    Ok(())
}
