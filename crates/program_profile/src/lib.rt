// The applications of each function of a table, as lines for the program to print after a run's result.
#![tactic(auto)]

ghost use Rattle.std.specs.Prelude.{◌+◌, ◌*◌, ◌≤◌, ◌<◌, length};
ghost use Rattle.meaning.specs.Allowed.{max_name};
ghost use Rattle.meaning.specs.Reading.{read};
ghost use Rattle.tape_words.specs.Words.{head_name, head_names};
ghost use Rattle.byte_writing.specs.Put.{farthest};
ghost use Rattle.byte_writing.specs.Wrote.{Wrote};
ghost use Rattle.program_printing.specs.Texts.{profile_line, profile_lines, profile_text, WroteAtMost};
ghost use Rattle.program_profile.specs.Profiles.{line_cells, profile_cells, NameSpelled, AllSpelled, names_read};

use byte_writing::ByteWriter;
use code_table::functions::find_heads;
use engine_tables::tape_room;
use program_printing::put_number;
use read_table::words_read;
use tape_words::kinds::KIND_WIDTH;
use tape_words::limits::MAX_FUNCTIONS;
use tape_words::tape::{name_at, room};

// The name of the function whose word is `head`.
fn put_name(writer: &mut ByteWriter, tape: &[u32], head: usize)
    requires { NameSpelled tape.now head × (writer.old.at + max_name < farthest) }
    ensures { Wrote writer.old (head_name tape.now head) writer.new }
{
    let name = name_at(tape, head);
    for &word in name {
        writer.put((word % KIND_WIDTH) as u8);
    }
}

// Number, name and applications of a function, parted by one blank.
fn put_line(writer: &mut ByteWriter, tape: &[u32], head: usize, number: usize, applications: u64)
    requires { NameSpelled tape.now head × (writer.old.at + line_cells < farthest) }
    ensures { WroteAtMost line_cells writer.old
        (profile_line number (head_name tape.now head) applications) writer.new }
{
    put_number(writer, number as u64, b' ');
    put_name(writer, tape, head);
    writer.put(b' ');
    put_number(writer, applications, b'\n');
}

// A line for each function, in the order of the table. `heads` are the places of their words.
fn put_lines(writer: &mut ByteWriter, tape: &[u32], heads: &[usize], counts: &[u64])
    requires { AllSpelled tape.now heads.now × (length heads.now ≤ length counts.now) ×
        (writer.old.at + line_cells * length heads.now < farthest) }
    ensures { WroteAtMost (line_cells * length heads.now) writer.old
        (profile_lines 0 (head_names tape.now heads.now) counts.now) writer.new }
{
    for (k, &head) in heads.iter().enumerate() {
        put_line(writer, tape, head, k + 1, counts[k]);
    }
}

// The lines of a table's functions, then the steps. A table that is refused has no functions.
pub fn put_profile(writer: &mut ByteWriter, table: &[u8], counts: &[u64; MAX_FUNCTIONS], steps: u32)
    requires { writer.old.at + profile_cells < farthest }
    ensures { WroteAtMost profile_cells writer.old
        (profile_text (names_read (read table.now)) counts.now steps) writer.new }
{
    let mut tape = tape_room();
    let words = words_read(read_table::read(table, &mut tape));
    let used = &tape[..words];
    let mut heads = room();
    let count = find_heads(used, &mut heads);
    put_lines(writer, used, &heads[..count], counts);
    writer.put_all(b"total ");
    put_number(writer, u64::from(steps), b'\n');
}
