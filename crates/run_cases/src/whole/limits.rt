//! Runs at limits, and for want of memory.

ghost use Rattle.std.specs.Prelude.{None};
ghost use Rattle.outside.specs.Faults.{shown-bounded};

use super::*;
use outside::LoadFault;

// A script of the most blanks, one of a byte more, and numbers of conjuncts at their limit.
#[test]
fn at_limits(rt: HostRuntime) -> Result<(), Fail> {
    let alloc = rt.alloc();
    let most = vec![in alloc; b' '; 67_108_864]?;
    let at_end = "Script { fault: Syntax { at: 67108864 } }";
    let note = "script: syntax at byte 67108864\n";
    assert!(rt; ended(&rt, alloc, "n", &most, at_end, note)?);
    let long = vec![in alloc; b' '; 67_108_865]?;
    let of_script = "Limit { of: File { file: Script } }";
    assert!(rt; ended(&rt, alloc, "n", &long, of_script, "limit: file of script\n")?);
    let mut text = Vec::new(alloc);
    text.extend_from_slice(b"SELECT x FROM n WHERE x=1")?;
    for _ in 0..47 {
        text.extend_from_slice(b" AND x=1")?;
    }
    assert!(rt; ended(&rt, alloc, "n", &text, "Done", "")?);
    text.extend_from_slice(b" AND x=1")?;
    let many = "Limit { of: Bind { statement: 1, fault: TooManyConjuncts { at: 406 } } }";
    assert!(rt;
        ended(
            &rt,
            alloc,
            "n",
            &text,
            many,
            "limit: conjuncts at byte 406\n"
        )?
    );
    Ok(())
}

// Twice as many lines 22 times, which is a heading and 4,194,303 records.
fn lines_of(alloc: Global) -> Result<Vec<u8>, Fail> {
    let mut lines = Vec::new(alloc);
    lines.extend_from_slice(b"1\n")?;
    for _ in 0..22 {
        let mut twice = Vec::with_capacity(alloc, lines.len())?;
        twice.extend_from_slice(&lines)?;
        twice.extend_from_slice(&lines)?;
        lines = twice;
    }
    Ok(lines)
}

// A table's file of one byte more than the most, and one of one record more.
#[test]
fn tables_at_limits(rt: HostRuntime) -> Result<(), Fail> {
    let alloc = rt.alloc();
    let long = vec![in alloc; b' '; 67_108_865]?;
    let mut folder = folder_of(alloc, b"SELECT x FROM n")?;
    folder.keep("long", &long)?;
    let of_file = "Limit { of: File { file: Table(1) } }";
    assert!(rt;
        ended_in(
            &rt,
            alloc,
            "n long",
            &mut folder,
            of_file,
            "limit: file of table long\n"
        )?
    );
    folder.keep("many", &lines_of(alloc)?)?;
    let of_rows = "Limit { of: Table { table: 1, fault: TooManyRows } }";
    assert!(rt;
        ended_in(
            &rt,
            alloc,
            "n many",
            &mut folder,
            of_rows,
            "limit: rows of table many\n"
        )?
    );
    Ok(())
}

// A folder that never has memory for a file.
#[derive(Drop)]
struct NoRoom;

impl Folder for NoRoom {
    ghost holds = { λ _. None };

    ghost faults = { λ _. 0 };

    ghost bounded = { λ _. shown-bounded 0 };

    fn load(&mut self, _alloc: Global, _name: &str, _limit: usize) -> Result<Vec<u8>, LoadFault> {
        Err(LoadFault::Memory)
    }

    fn look(
        &mut self,
        _alloc: Global,
        _name: &str,
        _limit: usize,
    ) -> Result<Option<Vec<u8>>, LoadFault> {
        Err(LoadFault::Memory)
    }
}

#[test]
fn out_of_memory(rt: HostRuntime) -> Result<(), Fail> {
    assert!(rt;
        ended_in(
            &rt,
            rt.alloc(),
            "n",
            &mut NoRoom,
            "Memory",
            "out of memory\n"
        )?
    );
    Ok(())
}
