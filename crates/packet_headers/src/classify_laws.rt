//! What holds of every frame that is classified: each law is the contract of a function that does nothing.

ghost use Rattle.packet_headers.specs.ClassifyLaws.{EqualFramesAreEqualPackets, ReadsTheFrameAlone};

/// A frame is classified by its captured bytes, as if the file had no others.
pub fn classify_reads_the_frame_alone()
    ensures { ReadsTheFrameAlone }
{}

/// Frames of one link with equal captured bytes are one packet, each at its place in its file.
pub fn equal_frames_are_equal_packets()
    ensures { EqualFramesAreEqualPackets }
{}
