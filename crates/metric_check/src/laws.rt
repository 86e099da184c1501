//! What follows from the definitions of a certificate's check.
ghost use Rattle.metric_check.specs.Checked.{FindsNothingWhereValid, FindsOne, ValidIsSafe};

/// The check of a certificate finds no fault exactly where the certificate is valid. Does nothing.
pub fn nothing_is_found_where_valid()
    ensures { FindsNothingWhereValid }
{}

/// Which fault the check of a certificate finds, or that it finds none, has one answer only. Does nothing.
pub fn faults_are_single()
    ensures { FindsOne }
{}

/// What has a valid certificate can overflow neither a limit nor a number. Does nothing.
pub fn valid_is_safe()
    ensures { ValidIsSafe }
{}
