// The first line of the input: the first seed and how many there are.

#[derive(Clone, Copy)]
pub(crate) struct Request {
    pub(crate) first: u64,
    pub(crate) count: u64,
}

impl Request {
    pub(crate) fn read(text: &str) -> Option<Request> {
        let mut words = text.lines().next()?.split_whitespace();
        let first = words.next()?.parse::<u64>().ok()?;
        let count = words.next()?.parse::<u64>().ok()?;
        if words.next().is_some() {
            return None;
        }
        Some(Request { first, count })
    }
}
