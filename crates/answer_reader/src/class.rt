ghost use Rattle.std.specs.Prelude.{◌≡◌, ◌<◌, ◌≤◌, ◌*◌, ◌^◌, length, option_map, IfSome};
ghost use Rattle.tier_core.specs.Classes.{sets_of};
ghost use Rattle.answer_reader.specs.Classes.{class_of, set_and_rest};
ghost use Rattle.answer_reader.specs.Decoding.{closed_by, decode_set, front_seen, has_two, symbols_from, with_symbol};

use tier_core::{Class, Sym, single_set};

/// Adds the symbol at the front to the set.
fn with_symbol(set: u8, bytes: &[u8], bit: u8, byte: u8) -> (u8, &[u8])
    requires below { set < bit }
    requires few { bit ≤ 16 }
    ensures front { front_seen result ≡ with_symbol bit byte (set, bytes.entry.now) }
    ensures below { result.0 < 2 * bit }
{
    match bytes.split_first() {
        Some((first, rest)) if *first == byte => (set + bit, rest),
        _ => (set, bytes),
    }
}

/// The symbols at the front, in their order, and what follows them.
fn symbols_from(bytes: &[u8]) -> (u8, &[u8])
    ensures front { front_seen result ≡ symbols_from bytes.entry.now }
    ensures set { result.0 < 32 }
{
    let (set, rest) = with_symbol(0, bytes, 1, b'-');
    let (set, rest) = with_symbol(set, rest, 2, b'+');
    let (set, rest) = with_symbol(set, rest, 4, b'[');
    let (set, rest) = with_symbol(set, rest, 8, b']');
    with_symbol(set, rest, 16, b'|')
}

fn has_two(set: u8) -> bool
    ensures { result ≡ has_two set }
{
    !matches!(set, 0 | 1 | 2 | 4 | 8 | 16)
}

/// A set in braces, after the opening one.
fn set_in_braces(bytes: &[u8]) -> Option<(u8, &[u8])>
    ensures front { option_map front_seen result ≡ closed_by (symbols_from bytes.entry.now) }
    ensures set { IfSome result (λ front. front.0 < 32) }
{
    let (set, rest) = symbols_from(bytes);
    match rest.split_first() {
        Some((first, behind)) if has_two(set) && *first == b'}' => Some((set, behind)),
        _ => None,
    }
}

/// The set at the front of the bytes, and what follows it.
fn set_and_rest(bytes: &[u8]) -> Option<(u8, &[u8])>
    ensures front { option_map front_seen result ≡ decode_set bytes.entry.now }
    ensures set { IfSome result (λ front. front.0 < 32) }
{
    let (first, rest) = bytes.split_first()?;
    if *first == b'{' {
        return set_in_braces(rest);
    }
    let sym = Sym::of_byte(*first)?;
    Some((single_set(sym), rest))
}

/// The class of a text with one set for each of `width` tiers, and nothing after them. None if the
/// text is not a class: a set of one symbol is written as the symbol, and a larger set as its symbols
/// in order, in braces.
pub fn class_of(width: u32, text: &[u8]) -> Option<Class>
    requires some { 1 ≤ width }
    requires few { width ≤ 12 }
    ensures { option_map sets_of result ≡ class_of width text.now }
{
    let mut sets = [0; 12];
    let mut rest = text;
    for tier in 0..width as usize {
        let Some((set, behind)) = set_and_rest(rest) else {
            return None;
        };
        sets[tier] = set;
        rest = behind;
    }
    if !rest.is_empty() {
        return None;
    }
    Some(Class::of_bits(&sets[..width as usize]))
}
