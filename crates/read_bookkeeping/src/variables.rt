// The variables of a sentence, by their identifiers in the text.
ghost use Rattle.std.specs.Prelude.{◌≤◌};
ghost use Rattle.meaning.specs.Allowed.{max_symbols};
ghost use Rattle.read_bookkeeping.specs.Tables.{max_parts};

use read_tokens::Span;
use tape_words::limits::MAX_SYMBOLS;

// The e-variables of a pattern.
pub const MAX_PARTS: usize = 2;

// The first `symbol_count` of `symbols` and the first `part_count` of `parts`, in the order in which the pattern first
// names them. The arrays and their counts are the fixed memory of a reader without a heap.
#[derive(Clone, Copy)]
pub struct Variables {
    symbols: [Span; MAX_SYMBOLS],
    symbol_count: usize,
    parts: [Span; MAX_PARTS],
    part_count: usize,
    ghost few_symbols: { symbol_count ≤ max_symbols },
    ghost few_parts: { part_count ≤ max_parts },
}

impl Variables {
    ghost use Rattle.std.specs.Prelude.{◌≡◌, ◌<◌, [], ◌∷◌, ◌++◌, length};
    ghost use Rattle.read_bookkeeping.specs.Items.{symbol_spans, part_spans};

    // None yet.
    pub fn new() -> Variables
        ensures symbols { symbol_spans result ≡ [] }
        ensures parts { part_spans result ≡ [] }
    {
        let nowhere = Span { from: 0, past: 0 };
        Variables {
            symbols: [nowhere; MAX_SYMBOLS],
            symbol_count: 0,
            parts: [nowhere; MAX_PARTS],
            part_count: 0,
        }
    }

    // None any more. The spans themselves stay where they are, beyond the counts.
    pub fn clear(&mut self)
        ensures symbols { symbol_spans self.new ≡ [] }
        ensures parts { part_spans self.new ≡ [] }
    {
        self.symbol_count = 0;
        self.part_count = 0;
    }

    // The s-variables.
    pub fn symbols(&self) -> &[Span]
        ensures { result.now ≡ symbol_spans self.now }
    {
        &self.symbols[..self.symbol_count]
    }

    // The e-variables.
    pub fn parts(&self) -> &[Span]
        ensures { result.now ≡ part_spans self.now }
    {
        &self.parts[..self.part_count]
    }

    // One s-variable more.
    pub fn add_symbol(&mut self, x: Span)
        requires { length (symbol_spans self.old) < max_symbols }
        ensures symbols { symbol_spans self.new ≡ symbol_spans self.old ++ x ∷ [] }
        ensures parts { part_spans self.new ≡ part_spans self.old }
    {
        self.symbols[self.symbol_count] = x;
        self.symbol_count += 1;
    }

    // One e-variable more.
    pub fn add_part(&mut self, x: Span)
        requires { length (part_spans self.old) < max_parts }
        ensures symbols { symbol_spans self.new ≡ symbol_spans self.old }
        ensures parts { part_spans self.new ≡ part_spans self.old ++ x ∷ [] }
    {
        self.parts[self.part_count] = x;
        self.part_count += 1;
    }
}
