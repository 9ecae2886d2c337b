// Dialogues over memory: an input that comes in any pieces, and a source, a sink and memory that fail in the middle.

use base_answers::status::{SINK_FAILED, SOURCE_FAILED, VALID};
use base_watch::Unwatched;
use job_dialogue::converse;
use prover_io::{MemorySink, MemorySource, Source};
use std::alloc::Global;
use std::process::Abort;
use std::test::Fail;

const COMMANDS: &[u8] =
    b"(set-option :print-success true) ; a )\n(declare-const |x)| Int)(assert (< |x)| 3))\n(push)(assert (> |x)| 5))(check-sat)(pop 2)(pop)\n(check-sat)(echo \"a ) \"\"\")(assert y)) (get-info :error-behavior)\n(exit)(check-sat)";

const ANSWERS: &[u8] =
    b"success\nsuccess\nsuccess\nsuccess\nsuccess\nunsat\n(error \"line 3, column 37: not supported, or more levels are left than are open\")\nsuccess\nsat\n\"a ) \"\"\"\n(error \"line 4, column 35: a symbol that nothing in force declares or defines\")\n(error \"line 4, column 37: no command goes on like this, or it ends too early\")\n(:error-behavior continued-execution)\nsuccess\n";

// What a source and a sink do: how many bytes they give and take in one call, and the calls at which they fail.
#[derive(Clone, Copy)]
struct Ends<'a> {
    most: u64,
    source_fails: &'a [u64],
    sink_fails: &'a [u64],
}

impl<'a> Ends<'a> {
    const SOUND: Ends<'static> = Ends {
        most: 65_536,
        source_fails: &[],
        sink_fails: &[],
    };
}

// Asks for the status of the dialogue over this input, and for the bytes taken.
fn tells(
    rt: &impl Abort,
    alloc: Global,
    input: &[u8],
    ends: Ends<'_>,
    wanted: (u8, &[u8]),
) -> Result<(), Fail> {
    let mut files = Vec::new(alloc);
    files.push((
        String::from_str(alloc, "-")?,
        Vec::from_slice(alloc, input)?,
    ))?;
    let mut source = MemorySource::new(files, Vec::from_slice(alloc, ends.source_fails)?).with_most(
        ends.most.max(1),
    );
    let sink_fails = Vec::from_slice(alloc, ends.sink_fails)?;
    let mut sink = MemorySink::new(alloc, 1_048_576, ends.most.max(1), sink_fails)?;
    let Ok(()) = source.begin("-") else {
        return Ok(());
    };
    let status = converse(alloc, &mut source, &mut sink, 1_000_000, &mut Unwatched);
    let came = sink.taken();
    let (ended, text) = wanted;
    assert!(rt; status == ended && came == text, "{status} {came:?}");
    Ok(())
}

#[test]
fn answers_an_input_in_any_pieces(rt: HostRuntime) -> Result<(), Fail> {
    for most in [1, 7, 65_536] {
        tells(
            &rt,
            rt.alloc(),
            COMMANDS,
            Ends {
                most,
                ..Ends::SOUND
            },
            (VALID, ANSWERS),
        )?;
    }
    Ok(())
}

#[test]
fn answers_what_is_left_at_the_end(rt: HostRuntime) -> Result<(), Fail> {
    let sound = Ends::SOUND;
    tells(
        &rt,
        rt.alloc(),
        b"(check-sat)\n ; (",
        sound,
        (VALID, b"sat\n"),
    )?;
    tells(
        &rt,
        rt.alloc(),
        b"(check-sat)\n(assert (",
        sound,
        (
            VALID,
            b"sat\n(error \"line 2, column 10: no command goes on like this, or it ends too early\")\n",
        ),
    )
}

#[test]
fn stops_where_the_outside_fails(rt: HostRuntime) -> Result<(), Fail> {
    let input = b"(check-sat)(echo \"a\")";
    let source = Ends {
        most: 11,
        source_fails: &[2],
        ..Ends::SOUND
    };
    tells(&rt, rt.alloc(), input, source, (SOURCE_FAILED, b"sat\n"))?;
    let sink = Ends {
        sink_fails: &[1],
        ..Ends::SOUND
    };
    tells(&rt, rt.alloc(), input, sink, (SINK_FAILED, b"sat\n"))
}
