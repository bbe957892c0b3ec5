//! The line of a status on the notes. The lines of others are rows of proofs/NoteRows.
use command_line::RemoteWord;
use outside::MemorySink;
use remote_lookup::RemoteKey;
use run_notes::put_note;
use run_plan::{FileOf, LimitOf, Status};
use sq_value::SqText;
use std::test::Fail;

#[test]
fn a_status_has_its_line(rt: HostRuntime) -> Result<(), Fail> {
    let alloc = rt.alloc();
    let remotes = vec![in alloc;
        RemoteWord {
            name: SqText::of(alloc, "visit")?,
            column: SqText::of(alloc, "who")?,
            prefix: SqText::of(alloc, "v/")?,
        },
    ]?;
    let at = RemoteKey {
        remote: 0,
        key: i64::MIN,
    };
    let file = FileOf::Key(at);
    let status = Status::Limit {
        of: LimitOf::File { file },
    };
    let mut notes = MemorySink::with_room(alloc, 99)?;
    let ended = put_note(alloc, &[], remotes.as_slice(), status, &mut notes);
    let line = b"limit: file of remote visit key -9223372036854775808\n";
    assert!(rt; ended == status && notes.written() == line.as_slice());
    Ok(())
}
