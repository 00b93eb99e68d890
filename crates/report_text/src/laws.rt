//! Laws of reports, over the definitions alone.

ghost use Rattle.report_text.specs.Laws.{OneValue, ReportReadsBack, Exclusive, OneBadLine};

/// A report is the text of one value: what is printed of a value reads as that value and as no
/// other. A text that is a report has no bad line, and any other has one at most.
pub fn reports_read_one_way()
    ensures one_value { OneValue }
    ensures reads_back { ReportReadsBack }
    ensures exclusive { Exclusive }
    ensures one_bad_line { OneBadLine }
{}
