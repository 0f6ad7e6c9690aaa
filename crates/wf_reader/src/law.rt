//! What each manifest that is read keeps, as the contract of a function that does nothing.

ghost use Rattle.wf_reader.specs.Short.{ReadsShort};

/// The templates, groups, steps, tasks, parameters and retries of a manifest that is read are within their limits.
pub fn reads_short()
    ensures { ReadsShort }
{}
