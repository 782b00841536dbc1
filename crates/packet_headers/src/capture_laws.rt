//! What holds of all bytes as capture files: each law is the contract of a function that does nothing.

ghost use Rattle.packet_headers.specs.CaptureLaws.{BytesHaveFramesOrFault, CapturesAreUnique, CapturesHaveNoFault, FaultsAreUnique};

/// Bytes are a capture file of one list of frames at most.
pub fn captures_are_unique()
    ensures { CapturesAreUnique }
{}

/// Bytes have one fault at most.
pub fn faults_are_unique()
    ensures { FaultsAreUnique }
{}

/// A capture file has no fault.
pub fn captures_have_no_fault()
    ensures { CapturesHaveNoFault }
{}

/// Each list of bytes is a capture file of some frames, or has a fault.
pub fn bytes_have_frames_or_fault()
    ensures { BytesHaveFramesOrFault }
{}
