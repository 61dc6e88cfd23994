//! The laws of merged reports: each function does nothing, and its contract is proved of the definitions.
ghost use Rattle.er_merge.specs.Laws.{AddressesFollowWords, PagesMakeTheReport, PartsAreMerged, PartsAreWrittenSo, PartsMakeTheText, ReportsAreReadBack, TextsHaveNoFault, TextsMergeAsReports, TracesHaveFewSteps, WrittenPartsAreMerged};

/// What is printed for a part's report, behind a first line, is read back as the report.
pub fn a_report_is_read_back()
    ensures { ReportsAreReadBack }
{}

/// No text of a part's report has a line with a fault.
pub fn texts_of_reports_are_read()
    ensures { TextsHaveNoFault }
{}

/// The text that is merged of the texts of reports is the text of the merged reports, and has their number of races.
pub fn merged_texts_are_merged_reports()
    ensures { TextsMergeAsReports }
{}

/// If races alone share a line of the trace, then the addresses that are read of the lines are in the order of the words.
pub fn addresses_follow_words()
    ensures { AddressesFollowWords }
{}

/// The texts of the reports of all parts of a trace, each once and in any order, are merged into the text of the report of the trace, byte for byte. If they
/// all say the same of the trace, only a want of memory keeps them from being merged.
pub fn parts_of_a_trace_make_its_report()
    ensures text { PartsMakeTheText }
    ensures merged { PartsAreMerged }
{}

/// A replay of the trace that keeps the pages of the merged text's lines alone, with the counts of that text, makes the report of the whole trace: with
/// reasons or without, whatever the texts of the parts have.
pub fn pages_of_the_lines_make_its_report()
    ensures { PagesMakeTheReport }
{}

/// The first line of each part, as `put_heading` writes it, and then the report of the part are such a text, and all of them say the same of the trace.
pub fn a_part_is_written_so()
    ensures { PartsAreWrittenSo }
{}

/// What is written of all parts of a trace, in any order, is merged into the text of the report of the trace, byte for byte, unless memory is wanting.
pub fn written_parts_are_merged()
    ensures { WrittenPartsAreMerged }
{}

/// A trace has at most 1,025 steps for each byte of its text, as many as a reuse can touch pages.
pub fn a_trace_has_few_steps()
    ensures { TracesHaveFewSteps }
{}
