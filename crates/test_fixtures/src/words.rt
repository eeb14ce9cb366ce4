// The words of a line, of which the longest has nine; an empty one for each that isn't there.
pub(crate) fn words_of(line: &str) -> [&str; 9] {
    let mut words = [""; 9];
    for (index, word) in line.split_whitespace().enumerate() {
        if index < words.len() {
            words[index] = word;
        }
    }
    words
}

// What is stated behind this name, as `account=`; else the other.
pub(crate) fn told<'a>(words: &[&'a str; 9], name: &str, other: &'static str) -> &'a str {
    for word in words {
        if let Some(text) = word.strip_prefix(name) {
            return text;
        }
    }
    other
}
