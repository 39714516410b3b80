// A pattern's different s-variables.
ghost use Rattle.std.specs.Prelude.{◌≡◌, ◌≤◌, length};
ghost use Rattle.meaning.specs.Allowed.{max_letters};
ghost use Rattle.meaning.specs.Choice.{lookup, same_bytes};
ghost use Rattle.meaning.specs.Translation.{value_number};
ghost use Rattle.code_patterns.specs.Testing.{symbol_name, site_found, held, IsFirstNamed};

use crate::sites::{Register, Site};
use tape_words::limits::MAX_LETTERS;
use tape_words::names::name_is;

// One of them: the place of a word on the tape before its name, and the cell at which it stands first.
#[derive(Clone, Copy)]
pub struct Symbol {
    pub head: usize,
    pub site: Site,
}

// Room for as many as a pattern may have letters. An array, since nothing is allocated.
pub fn room() -> [Symbol; MAX_LETTERS]
    ensures { length result ≡ max_letters }
{
    [Symbol {
        head: 0,
        site: Site {
            register: Register::Start,
            offset: 0,
        },
    }; MAX_LETTERS]
}

impl Symbol {
    pub fn is_named(&self, tape: &[u32], name: &[u32]) -> bool
        ensures { result ≡ same_bytes name.now (symbol_name tape.now self.now) }
    {
        name_is(tape, self.head, name)
    }
}

// The place of the first with this name.
fn find_symbol(tape: &[u32], symbols: &[Symbol], name: &[u32]) -> Option<usize>
    ensures { IsFirstNamed tape.now symbols.now name.now result }
{
    symbols
        .iter()
        .position(|symbol| symbol.is_named(tape, name))
}

// Its cell.
pub fn find_site(tape: &[u32], symbols: &[Symbol], name: &[u32]) -> Option<Site>
    ensures { site_found result ≡ lookup name.now (held tape.now symbols.now) }
{
    let k = find_symbol(tape, symbols, name)?;
    Some(symbols[k].site)
}

// The number of the value that is stored for it.
pub fn value_number(tape: &[u32], symbols: &[Symbol], name: &[u32]) -> usize
    ensures number { result ≡ value_number (held tape.now symbols.now) name.now }
    ensures bound { result ≤ length symbols.now }
{
    find_symbol(tape, symbols, name).unwrap_or(0)
}
