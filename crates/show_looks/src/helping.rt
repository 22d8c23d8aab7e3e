//! `help` and `version`: the forms of the commands, and the program's version.
ghost use Rattle.show_judge.specs.Runs.{Does};
ghost use Rattle.show_judge.specs.Verb.{during, of_nothing};
ghost use Rattle.show_looks.specs.Help.{help_verb};
ghost use Rattle.show_looks.specs.Version.{version_verb};

use byte_streams::status::DONE;
use byte_streams::{Sink, Source};
use choreo_reader::show_law;
use show_judge::finish;

fn tell<S: Source, K: Sink>(bytes: &[u8], source: &mut S, sink: &mut K) -> u8
    ensures { Does (of_nothing bytes.now) (during S.told K.written K.faults source.old source.new sink.old sink.new)
        result }
{
    show_law();
    let _ = &source;
    finish(sink, bytes, DONE)
}

/// Runs `help` (docs/COMMANDS.md): these lines, the forms of the commands. It takes no memory and reads nothing.
pub fn help<S: Source, K: Sink>(lines: &[u8], source: &mut S, sink: &mut K) -> u8
    ensures { Does (help_verb lines.now) (during S.told K.written K.faults source.old source.new sink.old sink.new)
        result }
{
    tell(lines, source, sink)
}

/// Runs `version` (docs/COMMANDS.md): one line, the program's name and its version. It takes no memory and reads
/// nothing.
pub fn version<S: Source, K: Sink>(source: &mut S, sink: &mut K) -> u8
    ensures { Does version_verb (during S.told K.written K.faults source.old source.new sink.old sink.new) result }
{
    tell(b"hemtoghai 0.2.0\n", source, sink)
}
