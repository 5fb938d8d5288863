// The answers of the calls for C and Rust, as structs of numbers: number and cell of a refusal first, and 0 for all that a case does not have.
#![tactic(auto)]

ghost use Rattle.std.specs.Prelude.{◌≡◌};
ghost use Rattle.answers.specs.Answers.{«read_answer», laid_answer, check_answer, ends_answer, list_answer, frame_answer, mark_answer, copy_answer, mend_answer, pen_answer, stroke_answer, strip_answer, join_answer, drill_answer, start_answer, step_answer, reach_answer, report_answer};

use checker::Verdict;
use ends::Ended;
use finishing_reach::Sides;
use following::Drilled;
use mark_spec::Marked;
use mending::Mended;
use pen::Stroke;
use plan::{Measures, Refusal};
use read_entry::ReadPlan;
use season::Report;

// Number and cell of the refusal, or 0 and 0; the number of cells and the allowance.
#[repr(C)]
#[derive(Drop)]
pub struct ReadAnswer {
    pub number: u8,
    pub cell: u16,
    pub allowance: u16,
    pub count: usize,
}

// Number and cell of the refusal, or 0 and 0; width and rows of the sheet.
#[repr(C)]
#[derive(Drop)]
pub struct LayoutAnswer {
    pub number: u8,
    pub cell: u16,
    pub width: u32,
    pub rows: u32,
}

// Number and cell of the refusal, or 0 and 0; the rule broken with its two cells, or 0; width and rows of a placement that is kept.
#[repr(C)]
#[derive(Drop)]
pub struct CheckAnswer {
    pub number: u8,
    pub cell: u16,
    pub rule: u8,
    pub a: u16,
    pub b: u16,
    pub width: u32,
    pub rows: u32,
}

// Number and cell of the refusal, or 0 and 0; the two ends of the connector.
#[repr(C)]
#[derive(Drop)]
pub struct EndsAnswer {
    pub number: u8,
    pub cell: u16,
    pub from_x: i32,
    pub from_y: i32,
    pub to_x: i32,
    pub to_y: i32,
}

// Number and cell of the refusal, or 0 and 0; the length of the listing.
#[repr(C)]
#[derive(Drop)]
pub struct ListAnswer {
    pub number: u8,
    pub cell: u16,
    pub length: usize,
}

// Number and cell of the refusal, or 0 and 0.
#[repr(C)]
#[derive(Drop)]
pub struct LabelAnswer {
    pub number: u8,
    pub cell: u16,
}

// The bytes of a file from start to end.
#[repr(C)]
#[derive(Drop)]
pub struct LabelPart {
    pub start: usize,
    pub end: usize,
}

// Number and cell of the refusal, or 0 and 0; 1 and the least allowance that fits, or 2 for none.
#[repr(C)]
#[derive(Drop)]
pub struct FrameAnswer {
    pub number: u8,
    pub cell: u16,
    pub outcome: u8,
    pub allowance: u32,
}

// Number and cell of the refusal, or 0 and 0; the lengths of the mended file and of its lines.
#[repr(C)]
#[derive(Drop)]
pub struct MendAnswer {
    pub number: u8,
    pub cell: u16,
    pub length: usize,
    pub lines: usize,
}

// Number and cell of the refusal, or 0 and 0; 1 a move, 2 a line, 3 a lift; the point moved to, or drawn to.
#[repr(C)]
#[derive(Drop)]
pub struct StrokeAnswer {
    pub number: u8,
    pub cell: u16,
    pub what: u8,
    pub x: f64,
    pub y: f64,
}

// Number and cell of the refusal, or 0 and 0.
#[repr(C)]
#[derive(Drop)]
pub struct StripAnswer {
    pub number: u8,
    pub cell: u16,
}

// Number and cell of the refusal, or 0 and 0; 1 finished, 2 spent, 3 wrong, 4 full; the bytes used and the number of records.
#[repr(C)]
#[derive(Drop)]
pub struct DrillAnswer {
    pub number: u8,
    pub cell: u16,
    pub outcome: u8,
    pub used: usize,
    pub records: usize,
}

// Number and cell of the refusal, or 0 and 0 for a sheet that is begun.
#[repr(C)]
#[derive(Drop)]
pub struct StartAnswer {
    pub number: u8,
    pub cell: u16,
}

// Number and cell of the refusal, or 0 and 0; 1 and the cell that was finished, or 2 for "done".
#[repr(C)]
#[derive(Drop)]
pub struct StepAnswer {
    pub number: u8,
    pub cell: u16,
    pub outcome: u8,
    pub finished: u16,
}

// Number and cell of the refusal, or 0 and 0; the left and the right reach.
#[repr(C)]
#[derive(Drop)]
pub struct ReachAnswer {
    pub number: u8,
    pub cell: u16,
    pub left: u32,
    pub right: u32,
}

// Number and cell of the refusal, or 0 and 0; the report, zeros with a refusal.
#[repr(C)]
#[derive(Drop)]
pub struct ReportAnswer {
    pub number: u8,
    pub cell: u16,
    pub report: Report,
}

// The answer of Read as a struct.
impl From<Result<ReadPlan, Refusal>> for ReadAnswer {
    ghost from_gives = { λ answer r. r ≡ read_answer answer };

    fn from(answer: Result<ReadPlan, Refusal>) -> ReadAnswer {
        match answer {
            Ok(plan) => ReadAnswer {
                number: 0,
                cell: 0,
                allowance: plan.allowance,
                count: plan.count as usize,
            },
            Err(refusal) => ReadAnswer {
                number: refusal.number,
                cell: refusal.cell,
                allowance: 0,
                count: 0,
            },
        }
    }
}

// The answer of Layout as a struct.
impl From<Result<Measures, Refusal>> for LayoutAnswer {
    ghost from_gives = { λ answer r. r ≡ laid_answer answer };

    fn from(answer: Result<Measures, Refusal>) -> LayoutAnswer {
        match answer {
            Ok(sheet) => LayoutAnswer {
                number: 0,
                cell: 0,
                width: sheet.width,
                rows: sheet.rows,
            },
            Err(refusal) => LayoutAnswer {
                number: refusal.number,
                cell: refusal.cell,
                width: 0,
                rows: 0,
            },
        }
    }
}

// The answer of Check as a struct.
impl From<Result<Verdict, Refusal>> for CheckAnswer {
    ghost from_gives = { λ answer r. r ≡ check_answer answer };

    fn from(answer: Result<Verdict, Refusal>) -> CheckAnswer {
        match answer {
            Ok(Verdict::Kept(sheet)) => CheckAnswer {
                number: 0,
                cell: 0,
                rule: 0,
                a: 0,
                b: 0,
                width: sheet.width,
                rows: sheet.rows,
            },
            Ok(Verdict::Broken(breach)) => CheckAnswer {
                number: 0,
                cell: 0,
                rule: breach.rule,
                a: breach.a,
                b: breach.b,
                width: 0,
                rows: 0,
            },
            Err(refusal) => CheckAnswer {
                number: refusal.number,
                cell: refusal.cell,
                rule: 0,
                a: 0,
                b: 0,
                width: 0,
                rows: 0,
            },
        }
    }
}

// The answer of Ends as a struct.
impl From<Result<Ended, Refusal>> for EndsAnswer {
    ghost from_gives = { λ answer r. r ≡ ends_answer answer };

    fn from(answer: Result<Ended, Refusal>) -> EndsAnswer {
        match answer {
            Ok(ends) => EndsAnswer {
                number: 0,
                cell: 0,
                from_x: ends.from_x,
                from_y: ends.from_y,
                to_x: ends.to_x,
                to_y: ends.to_y,
            },
            Err(refusal) => EndsAnswer {
                number: refusal.number,
                cell: refusal.cell,
                from_x: 0,
                from_y: 0,
                to_x: 0,
                to_y: 0,
            },
        }
    }
}

// The answer of List as a struct.
impl From<Result<usize, Refusal>> for ListAnswer {
    ghost from_gives = { λ answer r. r ≡ list_answer answer };

    fn from(answer: Result<usize, Refusal>) -> ListAnswer {
        match answer {
            Ok(length) => ListAnswer {
                number: 0,
                cell: 0,
                length,
            },
            Err(refusal) => ListAnswer {
                number: refusal.number,
                cell: refusal.cell,
                length: 0,
            },
        }
    }
}

// The answer of Frame as a struct.
impl From<Result<Option<u32>, Refusal>> for FrameAnswer {
    ghost from_gives = { λ answer r. r ≡ frame_answer answer };

    fn from(answer: Result<Option<u32>, Refusal>) -> FrameAnswer {
        match answer {
            Ok(Some(allowance)) => FrameAnswer {
                number: 0,
                cell: 0,
                outcome: 1,
                allowance,
            },
            Ok(None) => FrameAnswer {
                number: 0,
                cell: 0,
                outcome: 2,
                allowance: 0,
            },
            Err(refusal) => FrameAnswer {
                number: refusal.number,
                cell: refusal.cell,
                outcome: 0,
                allowance: 0,
            },
        }
    }
}

// Number and cell of the refusal, or 0 and 0; 1 full marks, 2 wide, 3 broken; rule and cells of the last; width and rows of a drawing that is kept, the least width of one that is wide.
#[repr(C)]
#[derive(Drop)]
pub struct MarkAnswer {
    pub number: u8,
    pub cell: u16,
    pub outcome: u8,
    pub rule: u8,
    pub a: u16,
    pub b: u16,
    pub width: u32,
    pub least: u32,
    pub rows: u32,
}

// The answer of Mark as a struct.
impl From<Result<Marked, Refusal>> for MarkAnswer {
    ghost from_gives = { λ answer r. r ≡ mark_answer answer };

    fn from(answer: Result<Marked, Refusal>) -> MarkAnswer {
        match answer {
            Ok(Marked::Full(sheet)) => MarkAnswer {
                number: 0,
                cell: 0,
                outcome: 1,
                rule: 0,
                a: 0,
                b: 0,
                width: sheet.width,
                least: 0,
                rows: sheet.rows,
            },
            Ok(Marked::Wide(wide, narrowest)) => MarkAnswer {
                number: 0,
                cell: 0,
                outcome: 2,
                rule: 0,
                a: 0,
                b: 0,
                width: wide.width,
                least: narrowest,
                rows: wide.rows,
            },
            Ok(Marked::Broken(broken)) => MarkAnswer {
                number: 0,
                cell: 0,
                outcome: 3,
                rule: broken.rule,
                a: broken.a,
                b: broken.b,
                width: 0,
                least: 0,
                rows: 0,
            },
            Err(refusal) => MarkAnswer {
                number: refusal.number,
                cell: refusal.cell,
                outcome: 0,
                rule: 0,
                a: 0,
                b: 0,
                width: 0,
                least: 0,
                rows: 0,
            },
        }
    }
}

// Number and cell of the refusal, or 0 and 0; the length of the clean copy.
#[repr(C)]
#[derive(Drop)]
pub struct CopyAnswer {
    pub number: u8,
    pub cell: u16,
    pub length: usize,
}

// The answer of Copy as a struct.
impl From<Result<usize, Refusal>> for CopyAnswer {
    ghost from_gives = { λ answer r. r ≡ copy_answer answer };

    fn from(answer: Result<usize, Refusal>) -> CopyAnswer {
        match answer {
            Ok(length) => CopyAnswer {
                number: 0,
                cell: 0,
                length,
            },
            Err(refusal) => CopyAnswer {
                number: refusal.number,
                cell: refusal.cell,
                length: 0,
            },
        }
    }
}

// The answer of Mend as a struct.
impl From<Result<Mended, Refusal>> for MendAnswer {
    ghost from_gives = { λ answer r. r ≡ mend_answer answer };

    fn from(answer: Result<Mended, Refusal>) -> MendAnswer {
        match answer {
            Ok(mended) => MendAnswer {
                number: 0,
                cell: 0,
                length: mended.file,
                lines: mended.lines,
            },
            Err(refusal) => MendAnswer {
                number: refusal.number,
                cell: refusal.cell,
                length: 0,
                lines: 0,
            },
        }
    }
}

// A stroke as a struct.
impl From<Stroke> for StrokeAnswer {
    ghost from_gives = { λ answer r. r ≡ pen_answer answer };

    fn from(stroke: Stroke) -> StrokeAnswer {
        match stroke {
            Stroke::Move(x, y) => StrokeAnswer {
                number: 0,
                cell: 0,
                what: 1,
                x,
                y,
            },
            Stroke::Line(x, y) => StrokeAnswer {
                number: 0,
                cell: 0,
                what: 2,
                x,
                y,
            },
            Stroke::Lift => StrokeAnswer {
                number: 0,
                cell: 0,
                what: 3,
                x: 0.0,
                y: 0.0,
            },
        }
    }
}

// The answer of a stroke's call as a struct.
impl From<Result<Stroke, Refusal>> for StrokeAnswer {
    ghost from_gives = { λ answer r. r ≡ stroke_answer answer };

    fn from(answer: Result<Stroke, Refusal>) -> StrokeAnswer {
        match answer {
            Ok(stroke) => StrokeAnswer::from(stroke),
            Err(refusal) => StrokeAnswer {
                number: refusal.number,
                cell: refusal.cell,
                what: 0,
                x: 0.0,
                y: 0.0,
            },
        }
    }
}

// The answer of Strip as a struct.
impl From<Result<(), Refusal>> for StripAnswer {
    ghost from_gives = { λ answer r. r ≡ strip_answer answer };

    fn from(answer: Result<(), Refusal>) -> StripAnswer {
        match answer {
            Ok(()) => StripAnswer { number: 0, cell: 0 },
            Err(refused) => StripAnswer {
                number: refused.number,
                cell: refused.cell,
            },
        }
    }
}

// Number and cell of the refusal, or 0 and 0; how many records the joined plan has.
#[repr(C)]
#[derive(Drop)]
pub struct JoinAnswer {
    pub number: u8,
    pub cell: u16,
    pub count: usize,
}

// The answer of Join as a struct.
impl From<Result<u16, Refusal>> for JoinAnswer {
    ghost from_gives = { λ answer r. r ≡ join_answer answer };

    fn from(answer: Result<u16, Refusal>) -> JoinAnswer {
        match answer {
            Ok(count) => JoinAnswer {
                number: 0,
                cell: 0,
                count: count as usize,
            },
            Err(refusal) => JoinAnswer {
                number: refusal.number,
                cell: refusal.cell,
                count: 0,
            },
        }
    }
}

// The answer of a drill as a struct.
impl From<Result<Drilled, Refusal>> for DrillAnswer {
    ghost from_gives = { λ answer r. r ≡ drill_answer answer };

    fn from(answer: Result<Drilled, Refusal>) -> DrillAnswer {
        match answer {
            Ok(Drilled::Finished(used, records)) => DrillAnswer {
                number: 0,
                cell: 0,
                outcome: 1,
                used,
                records,
            },
            Ok(Drilled::Spent(used, records)) => DrillAnswer {
                number: 0,
                cell: 0,
                outcome: 2,
                used,
                records,
            },
            Ok(Drilled::Wrong(used, records)) => DrillAnswer {
                number: 0,
                cell: 0,
                outcome: 3,
                used,
                records,
            },
            Ok(Drilled::Full(used, records)) => DrillAnswer {
                number: 0,
                cell: 0,
                outcome: 4,
                used,
                records,
            },
            Err(Refusal { number, cell }) => DrillAnswer {
                number,
                cell,
                outcome: 0,
                used: 0,
                records: 0,
            },
        }
    }
}

// The answer of Start as a struct.
impl From<Result<(), Refusal>> for StartAnswer {
    ghost from_gives = { λ answer r. r ≡ start_answer answer };

    fn from(answer: Result<(), Refusal>) -> StartAnswer {
        match answer {
            Ok(()) => StartAnswer { number: 0, cell: 0 },
            Err(Refusal { number, cell }) => StartAnswer { number, cell },
        }
    }
}

// The answer of Step as a struct.
impl From<Result<Option<u16>, Refusal>> for StepAnswer {
    ghost from_gives = { λ answer r. r ≡ step_answer answer };

    fn from(answer: Result<Option<u16>, Refusal>) -> StepAnswer {
        match answer {
            Ok(Some(finished)) => StepAnswer {
                number: 0,
                cell: 0,
                outcome: 1,
                finished,
            },
            Ok(None) => StepAnswer {
                number: 0,
                cell: 0,
                outcome: 2,
                finished: 0,
            },
            Err(Refusal { number, cell }) => StepAnswer {
                number,
                cell,
                outcome: 0,
                finished: 0,
            },
        }
    }
}

// The answer of Reach as a struct.
impl From<Result<Sides, Refusal>> for ReachAnswer {
    ghost from_gives = { λ answer r. r ≡ reach_answer answer };

    fn from(answer: Result<Sides, Refusal>) -> ReachAnswer {
        match answer {
            Ok(Sides { left, right }) => ReachAnswer {
                number: 0,
                cell: 0,
                left,
                right,
            },
            Err(Refusal { number, cell }) => ReachAnswer {
                number,
                cell,
                left: 0,
                right: 0,
            },
        }
    }
}

// The answer of Report or of Pool as a struct.
impl From<Result<Report, Refusal>> for ReportAnswer {
    ghost from_gives = { λ answer r. r ≡ report_answer answer };

    fn from(answer: Result<Report, Refusal>) -> ReportAnswer {
        match answer {
            Ok(report) => ReportAnswer {
                number: 0,
                cell: 0,
                report,
            },
            Err(refusal) => ReportAnswer {
                number: refusal.number,
                cell: refusal.cell,
                report: season::nothing(),
            },
        }
    }
}
