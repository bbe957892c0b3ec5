//! The line that says on the notes why a run was refused.

ghost use Rattle.std.specs.Prelude.{◌≡◌, ◌⊎◌, ◌++◌, [], IfOk, codes, map};
ghost use Rattle.std.specs.String.{string_bytes};
ghost use Rattle.sq_parse.specs.Fault.{fault_place};
ghost use Rattle.run_base.specs.Seen.{sink_seen};
ghost use Rattle.run_notes.specs.Note as spec;
ghost use Rattle.run_notes.specs.Note.{IsNoted, NotesOf, line_of, names_of};

use command_line::{RemoteWord, TableWord};
use outside::Sink;
use remote_lookup::RemoteKey;
use run_plan::{FileOf, LimitOf, Status};
use sq_bind::BindFault;
use sq_parse::ParseFault;
use std::alloc::{AllocError, Global};
use table_csv::TableFault;

// The name of the table with this number.
fn name_at(tables: &[TableWord], number: u32) -> &str
    ensures { result.now ≡ spec.name_at (map (λ t. t.name) tables.now) number }
{
    match tables.get(number as usize) {
        Some(table) => table.name.as_str(),
        None => "",
    }
}

// The name of the remote with this number.
fn remote_at(remotes: &[RemoteWord], number: u32) -> &str
    ensures { result.now ≡ spec.name_at (map (λ r. r.name) remotes.now) number }
{
    match remotes.get(number as usize) {
        Some(remote) => remote.name.as_str(),
        None => "",
    }
}

// A remote, between some words.
fn remote_note(
    alloc: Global,
    remotes: &[RemoteWord],
    front: &str,
    number: u32,
    back: &str,
) -> Result<String, AllocError>
    ensures { IfOk result (λ text. string_bytes text
        ≡ front.now ++ spec.remote_text (names_of [] remotes.now) number ++ back.now) }
{
    let name = remote_at(remotes, number);
    format!(in alloc; "{front}remote {name}{back}")
}

// A key of the remote of this name, between some words.
fn keyed_note(
    alloc: Global,
    front: &str,
    name: &str,
    key: i64,
    back: &str,
) -> Result<String, AllocError>
    ensures { IfOk result (λ text. string_bytes text ≡ front.now ++ spec.keyed_text name.now key ++ back.now) }
{
    format!(in alloc; "{front}remote {name} key {key}{back}")
}

// A key of a remote, between some words.
fn key_note(
    alloc: Global,
    remotes: &[RemoteWord],
    front: &str,
    at: RemoteKey,
    back: &str,
) -> Result<String, AllocError>
    ensures { IfOk result (λ text. string_bytes text
        ≡ front.now ++ spec.key_text (names_of [] remotes.now) at ++ back.now) }
{
    let name = remote_at(remotes, at.remote);
    keyed_note(alloc, front, name, at.key, back)
}

// A file, behind some words.
fn file_note(
    alloc: Global,
    tables: &[TableWord],
    remotes: &[RemoteWord],
    front: &str,
    file: FileOf,
) -> Result<String, AllocError>
    ensures { IfOk result (λ text. string_bytes text
        ≡ front.now ++ spec.file_text (names_of tables.now remotes.now) file) }
{
    match file {
        FileOf::Script => format!(in alloc; "{front}script"),
        FileOf::Table(number) => {
            let name = name_at(tables, number);
            format!(in alloc; "{front}table {name}")
        }
        FileOf::Heading(number) => {
            let name = remote_at(remotes, number);
            format!(in alloc; "{front}heading of {name}")
        }
        FileOf::Key(at) => key_note(alloc, remotes, front, at, ""),
    }
}

// What is wrong with a script.
fn parse_text(fault: ParseFault) -> &'static str
    ensures { result.now ≡ spec.parse_text fault }
{
    match fault {
        ParseFault::NotUtf8 { at: _ } => "not UTF-8",
        ParseFault::Syntax { at: _ } => "syntax",
        ParseFault::NumberTooLarge { at: _ } => "number too large",
        ParseFault::TooDeep { at: _ } => "depth",
        ParseFault::TooManyStatements { at: _ } => "statements",
        ParseFault::Memory => "memory",
    }
}

fn parse_place(fault: ParseFault) -> u32
    ensures { result ≡ fault_place fault }
{
    match fault {
        ParseFault::NotUtf8 { at }
        | ParseFault::Syntax { at }
        | ParseFault::NumberTooLarge { at }
        | ParseFault::TooDeep { at }
        | ParseFault::TooManyStatements { at } => at,
        ParseFault::Memory => 0,
    }
}

// What is wrong with a statement.
fn bind_text(fault: BindFault) -> &'static str
    ensures { result.now ≡ spec.bind_text fault }
{
    match fault {
        BindFault::UnknownTable { at: _ } => "unknown table",
        BindFault::RepeatedAlias { at: _ } => "repeated alias",
        BindFault::UnknownAlias { at: _ } => "unknown alias",
        BindFault::UnknownColumn { at: _ } => "unknown column",
        BindFault::AmbiguousColumn { at: _ } => "ambiguous column",
        BindFault::TypeMismatch { at: _ } => "type mismatch",
        BindFault::UnknownFunction { at: _ } => "unknown function",
        BindFault::WrongArguments { at: _ } => "wrong arguments",
        BindFault::TooManyAliases { at: _ } => "aliases",
        BindFault::TooManyConjuncts { at: _ } => "conjuncts",
        BindFault::TooManyTerms { at: _ } => "terms",
        BindFault::NotGrouped { at: _ } => "not grouped",
        BindFault::NotSelected { at: _ } => "not selected",
        BindFault::Unreachable { alias: _ } => "unreachable",
        BindFault::Memory => "memory",
    }
}

// Some words behind others, and a place.
fn at_byte(alloc: Global, front: &str, what: &str, at: u32) -> Result<String, AllocError>
    ensures { IfOk result (λ text. string_bytes text ≡ front.now ++ spec.at_byte what.now at) }
{
    format!(in alloc; "{front}{what} at byte {at}")
}

fn bind_note(alloc: Global, fault: BindFault) -> Result<String, AllocError>
    ensures { IfOk result (λ text. string_bytes text ≡ spec.bind_note fault) }
{
    match fault {
        BindFault::Unreachable { alias } => {
            let number = u32::from(alias) + 1;
            format!(in alloc; "alias {number} is unreachable")
        }
        _ => at_byte(alloc, "", bind_text(fault), fault.place()),
    }
}

// What is wrong with a table's file.
fn table_note(alloc: Global, fault: TableFault) -> Result<String, AllocError>
    ensures { IfOk result (λ text. string_bytes text ≡ spec.table_note fault) }
{
    match fault {
        TableFault::NoHeading => format!(in alloc; "no heading"),
        TableFault::Unequal { rec } => format!(in alloc; "record {rec} is unequal"),
        TableFault::NotUtf8 { rec, field } => {
            format!(in alloc; "record {rec} field {field} is not UTF-8")
        }
        TableFault::BadInteger { rec, field } => {
            format!(in alloc; "record {rec} field {field} is not an integer")
        }
        TableFault::BadDecimal { rec, field } => {
            format!(in alloc; "record {rec} field {field} is not a decimal")
        }
        TableFault::RepeatedColumn { field } => {
            format!(in alloc; "field {field} repeats a column")
        }
        TableFault::TooManyColumns => format!(in alloc; "columns"),
        TableFault::TooManyRows => format!(in alloc; "rows"),
        TableFault::Memory => format!(in alloc; "memory"),
    }
}

fn statement_note(alloc: Global, statement: u32, fault: BindFault) -> Result<String, AllocError>
    ensures { IfOk result (λ text. string_bytes text ≡ spec.note (names_of [] []) (Status.Bind statement fault)) }
{
    let text = bind_note(alloc, fault)?;
    format!(in alloc; "statement {statement}: {text}")
}

fn bad_table_note(
    alloc: Global,
    tables: &[TableWord],
    table: u32,
    fault: TableFault,
) -> Result<String, AllocError>
    ensures { IfOk result (λ text. string_bytes text
        ≡ spec.note (names_of tables.now []) (Status.BadTable table fault)) }
{
    let name = name_at(tables, table);
    let text = table_note(alloc, fault)?;
    format!(in alloc; "table {name}: {text}")
}

fn table_limit_note(
    alloc: Global,
    tables: &[TableWord],
    table: u32,
    fault: TableFault,
) -> Result<String, AllocError>
    ensures { IfOk result (λ text. string_bytes text
        ≡ codes "limit: " ++ spec.limit_note (names_of tables.now []) (LimitOf.Table table fault)) }
{
    let name = name_at(tables, table);
    let text = table_note(alloc, fault)?;
    format!(in alloc; "limit: {text} of table {name}")
}

// What passed a limit.
fn limit_note(
    alloc: Global,
    tables: &[TableWord],
    remotes: &[RemoteWord],
    of: LimitOf,
) -> Result<String, AllocError>
    ensures { IfOk result (λ text. string_bytes text
        ≡ spec.note (names_of tables.now remotes.now) (Status.Limit of)) }
{
    match of {
        LimitOf::File { file } => file_note(alloc, tables, remotes, "limit: file of ", file),
        LimitOf::Table { table, fault } => table_limit_note(alloc, tables, table, fault),
        LimitOf::Parse { fault } => at_byte(
            alloc,
            "limit: ",
            parse_text(fault),
            parse_place(fault),
        ),
        LimitOf::Bind {
            statement: _,
            fault,
        } => at_byte(alloc, "limit: ", bind_text(fault), fault.place()),
        LimitOf::Keys { remote } => remote_note(alloc, remotes, "limit: keys of ", remote, ""),
        LimitOf::Rows { remote } => remote_note(alloc, remotes, "limit: rows of ", remote, ""),
    }
}

// What a status says of a run over these tables and remotes.
fn note_of(
    alloc: Global,
    tables: &[TableWord],
    remotes: &[RemoteWord],
    status: Status,
) -> Result<String, AllocError>
    ensures { IfOk result (λ text. string_bytes text ≡ spec.note (names_of tables.now remotes.now) status) }
{
    match status {
        Status::Done => format!(in alloc; "done"),
        Status::Usage => {
            format!(in alloc;
                "usage: eddyql [OPTIONS] SCRIPT NAME=FILE.. or eddyql [OPTIONS] --demo ROWS"
            )
        }
        Status::Script { fault } => at_byte(
            alloc,
            "script: ",
            parse_text(fault),
            parse_place(fault),
        ),
        Status::Bind { statement, fault } => statement_note(alloc, statement, fault),
        Status::BadTable { table, fault } => bad_table_note(alloc, tables, table, fault),
        Status::BadHeading { remote } => remote_note(alloc, remotes, "", remote, ": bad heading"),
        Status::BadKey { at, why: _ } => key_note(alloc, remotes, "", at, ": bad file"),
        Status::NoColumn { access } => format!(in alloc; "access {access}: no such column"),
        Status::NotFound { file } => file_note(alloc, tables, remotes, "not found: ", file),
        Status::Read { file } => file_note(alloc, tables, remotes, "read fault: ", file),
        Status::Write => format!(in alloc; "write fault"),
        Status::Limit { of } => limit_note(alloc, tables, remotes, of),
        Status::Memory => format!(in alloc; "out of memory"),
    }
}

// The line that says why a run over these tables and remotes was refused.
fn line_of(
    alloc: Global,
    tables: &[TableWord],
    remotes: &[RemoteWord],
    status: Status,
) -> Result<String, AllocError>
    ensures { IfOk result (λ line. string_bytes line ≡ line_of (names_of tables.now remotes.now) status) }
{
    let text = note_of(alloc, tables, remotes, status)?;
    format!(in alloc; "{text}\n")
}

// One put of a line. A fault of the notes changes nothing else.
fn put_line<N: Sink>(line: &[u8], notes: &mut N)
    ensures { IsNoted (sink_seen notes.old (N.written notes.old) (N.faults notes.old))
        (sink_seen notes.new (N.written notes.new) (N.faults notes.new)) line.now }
{
    let _ = notes.put(line);
}

// Puts the line of a refusal.
fn put_refusal<N: Sink>(
    alloc: Global,
    tables: &[TableWord],
    remotes: &[RemoteWord],
    status: Status,
    notes: &mut N,
) -> Status
    ensures either { (result ≡ status) ⊎ (result ≡ Status.Memory) }
    ensures noted { IsNoted (sink_seen notes.old (N.written notes.old) (N.faults notes.old))
        (sink_seen notes.new (N.written notes.new) (N.faults notes.new))
        (line_of (names_of tables.now remotes.now) result) }
{
    match line_of(alloc, tables, remotes, status) {
        Ok(line) => {
            put_line(line.as_bytes(), notes);
            status
        }
        Err(_) => {
            put_line(b"out of memory\n", notes);
            Status::Memory
        }
    }
}

/// Puts the line that says why a run over these tables and remotes was refused, and nothing where it is done.
/// Gives the status: where there is no memory for the line, that is want of memory.
pub fn put_note<N: Sink>(
    alloc: Global,
    tables: &[TableWord],
    remotes: &[RemoteWord],
    status: Status,
    notes: &mut N,
) -> Status
    ensures { NotesOf (names_of tables.now remotes.now) (sink_seen notes.old (N.written notes.old) (N.faults notes.old))
        (sink_seen notes.new (N.written notes.new) (N.faults notes.new)) status result }
{
    if status == Status::Done {
        return status;
    }
    put_refusal(alloc, tables, remotes, status, notes)
}
