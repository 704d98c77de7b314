//! Messages of worked cases. A line has a minute, a tab and the stored text of a command.

use super::id;
use desk_types::{Command, Minute, Stamped};
use std::alloc::Global;
use std::test::Fail;

/// Every message kind, and refusals of each kind of test.
pub const EACH_WORD: &str = "1\tPartDefined\tP
1\tPartDefined\tQ
1\tPartDefined\tP
1\tAlternateAllowed\tP\tQ
2\tSheetDefined\tPR\tM\t2\t1\tP\t3\tR1\tR2\tR3\t2\tQ\t1\tC1
2\tSheetDefined\tPR\tN\t1\t1\tP\t1\tR1
2\tSheetDefined\tPS\tM\t1\t1\tP\t2\tR1\tR1
3\tProductSelected\tM\tPR
3\tProductSelected\tN\tPR
3\tProductSelected\tM\tPX
4\tReelReceived\tK1\tP\tL1\t1\t2\t0
4\tReelReceived\tK2\tQ\tL1\t3\t3\t0
4\tReelReceived\tK3\tQ\tL2\t6\t9\t60
4\tReelReceived\tK4\tP\tL2\t2a\t4\t0
4\tReelReceived\tK1\tP\tL1\t1\t2\t0
5\tMaterialsLoaded\tM\t1\tK1
5\tMaterialsLoaded\tM\t1\tK2
5\tMaterialsLoaded\tM\t2\tK1
5\tMaterialsLoaded\tM\t2\tK3
6\tReelBaked\tK3
7\tMaterialsLoaded\tM\t2\tK3
7\tMaterialsSpliced\tM\t1\tK2
8\tReelSealed\tK3
8\tReelOpened\tK4
9\tWorkStarted\tM\tB1
9\tWorkStarted\tN\tB1
10\tMaterialsInstalled\tM\tB1\t3\tR1\tR2\tC1
10\tMaterialsInstalled\tM\tB1\t2\tR3\tR3
10\tMaterialsInstalled\tM\tB1\t1\tR1
11\tMaterialsInstalled\tM\tB1\t1\tR3
11\tSheetDefined\tPR\tM\t1\t1\tQ\t1\tR9
12\tWorkCompleted\tM\tB1
12\tWorkCompleted\tM\tB1
13\tSheetDefined\tPR\tM\t1\t1\tQ\t2\tR1\tR9
14\tWorkStarted\tM\tB1
14\tMaterialsInstalled\tM\tB1\t1\tR9
15\tMaterialsScrapped\tM\t1\t9
15\tMaterialsScrapped\tM\t2\t2
16\tWorkCompleted\tM\tB1
16\tMaterialsUnloaded\tM\t2
16\tMaterialsUnloaded\tM\t2
17\tReelSealed\tK4
17\tCountsTaken\t2\tK3\t5\tK4\t7
17\tCountsTaken\t2\tK4\t4\tK3\t6
18\tCountsTaken\t1\tK1\t1
80\tMaterialsLoaded\tM\t2\tK3
90\tMaterialsLoaded\tM\t1\tK4
99999\tPartDefined\tZ
99999\tClockSet";

/// Those of the worked row `counts_are_all_or_nothing`.
pub const COUNTS: &str = "0\tPartDefined\tP
0\tPartDefined\tQ
0\tSheetDefined\tPR\tM\t1\t1\tP\t5\tR1\tR2\tR3\tR4\tR5
0\tProductSelected\tM\tPR
0\tReelReceived\tK1\tP\tL1\t1\t10\t0
0\tReelReceived\tK3\tP\tL1\t1\t10\t0
0\tReelReceived\tK4\tP\tL1\t1\t10\t0
0\tMaterialsLoaded\tM\t1\tK1
0\tCountsTaken\t3\tK3\t5\tK4\t5\tK1\t5
0\tCountsTaken\t2\tK3\t5\tK4\t5";

/// Those of `two_boards_from_one_lot`.
pub const TWO_BOARDS: &str = "0\tPartDefined\tP
0\tPartDefined\tQ
0\tSheetDefined\tPR\tM\t1\t1\tP\t5\tR1\tR2\tR3\tR4\tR5
0\tProductSelected\tM\tPR
0\tReelReceived\tK1\tP\tL\t1\t5\t0
0\tReelReceived\tK2\tP\tL\t1\t5\t0
0\tReelReceived\tK3\tP\tL2\t1\t5\t0
0\tMaterialsLoaded\tM\t1\tK1
0\tMaterialsSpliced\tM\t1\tK2
0\tWorkStarted\tM\tB1
0\tMaterialsInstalled\tM\tB1\t5\tR1\tR2\tR3\tR4\tR5
0\tWorkCompleted\tM\tB1
0\tWorkStarted\tM\tB2
0\tMaterialsInstalled\tM\tB2\t1\tR1";

/// Those of `a_reel_moved_to_another_slot`.
pub const MOVED: &str = "0\tPartDefined\tP
0\tSheetDefined\tPR\tM\t2\t1\tP\t1\tR1\t2\tP\t1\tC1
0\tProductSelected\tM\tPR
0\tReelReceived\tK1\tP\tL1\t1\t10\t0
0\tReelReceived\tK2\tP\tL1\t1\t20\t0
0\tReelReceived\tK3\tP\tL1\t1\t5\t0
0\tMaterialsLoaded\tM\t1\tK1
0\tMaterialsSpliced\tM\t1\tK2
0\tMaterialsLoaded\tM\t2\tK3
0\tWorkStarted\tM\tB1
0\tMaterialsInstalled\tM\tB1\t1\tR1
0\tWorkCompleted\tM\tB1
0\tMaterialsUnloaded\tM\t1
0\tMaterialsUnloaded\tM\t2
0\tMaterialsLoaded\tM\t2\tK2";

/// Returns the message of a line, under the UniqueID of this number.
pub fn message(alloc: Global, number: usize, line: &str) -> Result<Stamped, Fail> {
    let (minute, text) = line.split_once('\t').ok_or("no tab")?;
    let minute = minute.parse::<u64>().ok().ok_or("no number")?;
    let command = Command::read_text(alloc, text.as_bytes())?;
    let uid = format!(in alloc; "u{number}")?;
    Ok(Stamped {
        uid: id(uid.as_str())?,
        source: id("S")?,
        minute: Minute::new(minute).ok_or("no minute")?,
        command: command.ok_or("no command")?,
    })
}

/// The messages of a row.
pub fn messages(alloc: Global, row: &str) -> Result<Vec<Stamped>, Fail> {
    let mut messages = Vec::new(alloc);
    for (n, line) in row.split('\n').enumerate() {
        messages.push(message(alloc, n, line)?)?;
    }
    Ok(messages)
}

/// A stored text is read only as it is written: not with a leading zero, a wrong length, or a member missing or too many.
#[test]
fn stored_texts_are_read_as_written(rt: HostRuntime) -> Result<(), Fail> {
    for text in [
        "MaterialsLoaded\tM\t1\tK1",
        "MaterialsInstalled\tM\tB1\t2\tR1\tR2",
    ] {
        let read = Command::read_text(rt.alloc(), text.as_bytes())?;
        let command = read.ok_or("not read")?;
        assert!(rt; command.write_text(rt.alloc())?.as_slice() == text.as_bytes());
    }
    for text in [
        "MaterialsScrapped\tM\t1\t05",
        "MaterialsInstalled\tM\tB1\t3\tR1\tR2",
        "MaterialsInstalled\tM\tB1\t1\tR1\tR2",
        "MaterialsLoaded\tM\t1",
        "MaterialsLoaded\tM\t1\tK1\t",
    ] {
        assert!(rt; Command::read_text(rt.alloc(), text.as_bytes())?.is_none());
    }
    Ok(())
}
