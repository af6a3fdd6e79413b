//! Laws of the definitions. The functions do nothing: each contract is a law.

ghost use Rattle.pcfs_inquiry.specs.Laws.{FaultsAreDetermined, InquiriesAreDetermined, InquiriesHaveNoFault, LinesAreInquiriesOrFaulty};

/// Lines are one inquiry at most.
pub fn inquiries_are_determined()
    ensures { InquiriesAreDetermined }
{}

/// Lines have one first fault at most.
pub fn faults_are_determined()
    ensures { FaultsAreDetermined }
{}

/// Lines that are an inquiry have no fault.
pub fn inquiries_have_no_fault()
    ensures { InquiriesHaveNoFault }
{}

/// Lines are an inquiry or have a first fault.
pub fn lines_are_an_inquiry_or_faulty()
    ensures { LinesAreInquiriesOrFaulty }
{}
