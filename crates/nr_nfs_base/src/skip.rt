//! Skipping of values.

ghost use Rattle.std.specs.Prelude.{◌≡◌, Some, None};
ghost use Rattle.nr_nfs_base.specs.Codec.{cursor_after, enumeration, read_or_none};

use crate::attributes::{Attributes, AttributesParts, SpecialData};
use crate::file_type::FileType;
use crate::numbered::Numbered;
use crate::opaque::Opaque;
use crate::set_attributes::{SetAttributes, SetAttributesParts, SetTime, TimeHow};
use crate::stable::StableHow;
use crate::time::Time;
use crate::verifier::Verifier;
use crate::xdr::Xdr;
use nr_xdr::Reader;

/// A value that can be skipped without memory.
pub trait Skip: Xdr {
    /// The reader after the value at the reader's offset. `None` if an item of it fails.
    fn skip_from<'a>(reader: Reader<'a>) -> Option<Reader<'a>>
        ensures { result ≡ cursor_after (Self.codec.read reader.entry) };
}

#[tactic(auto, unfolding(crate::specs::Codec::word))]
impl Skip for u32 {
    fn skip_from<'a>(mut reader: Reader<'a>) -> Option<Reader<'a>> {
        match reader.u32() {
            Ok(_) => Some(reader),
            Err(_) => None,
        }
    }
}

#[tactic(auto, unfolding(crate::specs::Codec::hyper))]
impl Skip for u64 {
    fn skip_from<'a>(mut reader: Reader<'a>) -> Option<Reader<'a>> {
        match reader.u64() {
            Ok(_) => Some(reader),
            Err(_) => None,
        }
    }
}

#[tactic(auto, unfolding(crate::specs::Codec::boolean))]
impl Skip for bool {
    fn skip_from<'a>(mut reader: Reader<'a>) -> Option<Reader<'a>> {
        match reader.boolean() {
            Ok(_) => Some(reader),
            Err(_) => None,
        }
    }
}

#[tactic(auto, unfolding(crate::specs::Codec::opaque))]
impl<const MAX: u32> Skip for Opaque<MAX> {
    fn skip_from<'a>(mut reader: Reader<'a>) -> Option<Reader<'a>> {
        match reader.opaque(MAX) {
            Ok(_) => Some(reader),
            Err(_) => None,
        }
    }
}

/// Reads a value of an enumeration without memory.
#[tactic(auto, unfolding(crate::specs::Codec::enumeration, crate::specs::Codec::word))]
fn next_numbered<'a, T: Numbered>(mut reader: Reader<'a>) -> Option<(T, Reader<'a>)>
    ensures { result ≡ read_or_none ((enumeration T.number T.all).read reader.entry) }
{
    match reader.u32() {
        Err(_) => None,
        Ok(word) => match T::from_number(word) {
            None => None,
            Some(value) => Some((value, reader)),
        },
    }
}

/// Skips a value of an enumeration.
pub fn skip_numbered<'a, T: Numbered>(reader: Reader<'a>) -> Option<Reader<'a>>
    ensures { result ≡ cursor_after ((enumeration T.number T.all).read reader.entry) }
{
    match next_numbered::<T>(reader) {
        None => None,
        Some((_, reader)) => Some(reader),
    }
}

#[tactic(auto, unfolding(crate::specs::FileType::file_type_codec))]
impl Skip for FileType {
    fn skip_from<'a>(reader: Reader<'a>) -> Option<Reader<'a>> {
        skip_numbered::<FileType>(reader)
    }
}

#[tactic(auto, unfolding(crate::specs::Stable::stable_how_codec))]
impl Skip for StableHow {
    fn skip_from<'a>(reader: Reader<'a>) -> Option<Reader<'a>> {
        skip_numbered::<StableHow>(reader)
    }
}

#[tactic(auto, unfolding(crate::specs::Codec::optional, crate::specs::Codec::boolean))]
impl<T: Skip> Skip for Option<T> {
    fn skip_from<'a>(mut reader: Reader<'a>) -> Option<Reader<'a>> {
        match reader.boolean() {
            Err(_) => None,
            Ok(false) => Some(reader),
            Ok(true) => T::skip_from(reader),
        }
    }
}

#[tactic(auto, unfolding(crate::specs::SetAttributes::set_time_codec, crate::specs::SetAttributes::time_how_codec))]
impl Skip for SetTime {
    fn skip_from<'a>(reader: Reader<'a>) -> Option<Reader<'a>> {
        match next_numbered::<TimeHow>(reader) {
            None => None,
            Some((TimeHow::SetToClientTime, reader)) => Time::skip_from(reader),
            Some((_, reader)) => Some(reader),
        }
    }
}

impl<A: Skip, B: Skip> Skip for (A, B) {
    fn skip_from<'a>(reader: Reader<'a>) -> Option<Reader<'a>> {
        match A::skip_from(reader) {
            None => None,
            Some(reader) => B::skip_from(reader),
        }
    }
}

#[tactic(auto, using(crate::proofs::Skipping::structure_behind), unfolding(crate::specs::Time::time_codec))]
impl Skip for Time {
    fn skip_from<'a>(reader: Reader<'a>) -> Option<Reader<'a>> {
        <(u32, u32)>::skip_from(reader)
    }
}

#[tactic(auto, using(crate::proofs::Skipping::structure_behind), unfolding(crate::specs::Verifier::verifier_codec))]
impl Skip for Verifier {
    fn skip_from<'a>(reader: Reader<'a>) -> Option<Reader<'a>> {
        u64::skip_from(reader)
    }
}

#[tactic(auto, using(crate::proofs::Skipping::structure_behind), unfolding(crate::specs::Attributes::special_data_codec))]
impl Skip for SpecialData {
    fn skip_from<'a>(reader: Reader<'a>) -> Option<Reader<'a>> {
        <(u32, u32)>::skip_from(reader)
    }
}

#[tactic(auto, using(crate::proofs::Skipping::structure_behind), unfolding(crate::specs::Attributes::attributes_codec))]
impl Skip for Attributes {
    fn skip_from<'a>(reader: Reader<'a>) -> Option<Reader<'a>> {
        AttributesParts::skip_from(reader)
    }
}

#[tactic(auto, using(crate::proofs::Skipping::structure_behind), unfolding(crate::specs::SetAttributes::set_attributes_codec))]
impl Skip for SetAttributes {
    fn skip_from<'a>(reader: Reader<'a>) -> Option<Reader<'a>> {
        SetAttributesParts::skip_from(reader)
    }
}
