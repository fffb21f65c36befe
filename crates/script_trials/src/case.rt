// A script by its name, with what is printed for it.
#[derive(Clone, Copy)]
pub struct Case {
    pub name: &'static str,
    pub script: &'static str,
    pub printed: &'static str,
}

// A script with a part that stands in it many times.
#[derive(Clone, Copy)]
pub struct Repeated {
    pub name: &'static str,
    pub head: &'static str,
    pub part: &'static str,
    pub times: usize,
    pub tail: &'static str,
    pub printed: &'static str,
}
