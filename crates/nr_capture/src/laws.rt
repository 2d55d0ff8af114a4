//! What holds of every capture.

ghost use Rattle.nr_capture.specs.Writable.{ReadIsWritable, TextIsReadBack};

/// Reading is the inverse of writing: what is written of a capture is read back as that capture, if its numbers and bytes
/// are of their types, each mark is of a link of the first line, each piece has a byte or more, and each credential is
/// AUTH_NONE or that of a user of a drill. What is read of a text is such a capture.
pub fn text_is_read_back()
    ensures written { TextIsReadBack }
    ensures read { ReadIsWritable }
{}
