//! The files of a report.

ghost use Rattle.std.specs.Prelude.{◌≡◌, ◌++◌, IfOk, OnOk, map};
ghost use Rattle.run_plans.specs.PlannedModules.Runs.{AreGoSources, go_row, told_source};

use go_tree::NoMemory;
use module_texts::is_go_file;
use report_order::ReportSource;
use source_files::SourceFile;
use std::alloc::Global;

/// Adds the file, if it is one of Go source.
fn add_source<'a>(file: &'a SourceFile, sources: &mut Vec<ReportSource<'a>>) -> Result<(), NoMemory>
    ensures { OnOk result
        (map told_source sources.new.items ≡ map told_source sources.old.items ++ go_row file.now) }
{
    if !is_go_file(file) {
        return Ok(());
    }
    sources.push(ReportSource {
        path: file.path.items(),
        text: file.bytes.items(),
    })?;
    Ok(())
}

/// The files of Go source, as a report has them.
pub(crate) fn report_sources(
    alloc: Global,
    files: &[SourceFile],
) -> Result<Vec<ReportSource<'_>>, NoMemory>
    ensures { IfOk result (λ sources. AreGoSources files.now sources.items) }
{
    let mut sources = Vec::new(alloc);
    for file in files {
        add_source(file, &mut sources)?;
    }
    Ok(sources)
}
