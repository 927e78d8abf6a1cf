//! The segments (gABI ch. 5 "Program Header").

ghost use Rattle.std.specs.Prelude.{◌≡◌, ◌≤◌, ◌^◌, length, IfOk, OnOk, IfErr};
ghost use Rattle.dw_base.specs.Elf.{segments_of};
ghost use Rattle.dw_base.specs.ElfFails.{SegmentFails, SegmentsRead, SegmentTableReads};
ghost use Rattle.dw_base.specs.Layout.{output_limit};
ghost use Rattle.elf_file.specs.FileHeader.{file_header};

use crate::records::FileHeader;
use crate::sections::lies_within;
use crate::tables::nth_segment_in;
use dw_base::{Kind, Refusal, Segment};
use std::alloc::{AllocError, Global};

/// All segments, in order.
#[tactic(auto, unfolding(crate::specs::FileHeader::file_header, dw_base::specs::Elf::segments_of))]
pub fn segments_in(
    alloc: Global,
    bytes: &[u8],
    header: &FileHeader,
) -> Result<Vec<Segment>, AllocError>
    requires is { header.now ≡ file_header bytes.now }
    requires small { length bytes.now ≤ output_limit }
    requires table { SegmentTableReads bytes.now }
    ensures { IfOk result (λ segments. segments.items ≡ segments_of bytes.now) }
{
    let mut segments = Vec::with_capacity(alloc, header.phnum as usize)?;
    for index in 0..header.phnum {
        let segment = nth_segment_in(bytes, header, index);
        segments.push(segment)?;
    }
    Ok(segments)
}

/// Each segment with bytes in the file ends in it. Refused as `Range` at (0, its header) exactly
/// where one doesn't.
#[tactic(auto, using(crate::proofs::Rows::segment_rows), unfolding(crate::specs::FileHeader::file_header))]
pub fn segments_lie(bytes: &[u8], header: &FileHeader) -> Result<(), Refusal>
    requires is { header.now ≡ file_header bytes.now }
    requires small { length bytes.now ≤ output_limit }
    requires table { SegmentTableReads bytes.now }
    ensures reads { OnOk result (SegmentsRead bytes.now) }
    ensures refused { IfErr result (SegmentFails bytes.now) }
{
    for index in 0..header.phnum {
        let segment = nth_segment_in(bytes, header, index);
        if segment.filesz != 0 && !lies_within(segment.offset, segment.filesz, bytes.len() as u64) {
            let offset = header
                .class
                .program_header_place(header.phoff, u64::from(index));
            return Err(Refusal::at(Kind::Range, 0, offset));
        }
    }
    Ok(())
}
