// A line of the input: nothing to answer, text, or bytes that cannot be shown.
#[derive(Drop)]
pub(crate) enum Line<'a> {
    // blank, or a comment
    Nothing,
    // not UTF-8, or with a control character other than a tab
    Unreadable,
    Text(&'a str),
}

impl<'a> Line<'a> {
    pub(crate) fn read(bytes: &'a [u8]) -> Line<'a> {
        let bytes = bytes.trim_ascii();
        if bytes.is_empty() || bytes.starts_with(b"#") {
            return Line::Nothing;
        }
        match std::str::from_utf8(bytes) {
            Ok(text) if is_plain(text) => Line::Text(text),
            _ => Line::Unreadable,
        }
    }
}

fn is_plain(text: &str) -> bool {
    text.chars().all(|c| !c.is_control() || c == '\t')
}
