/// What the words of a run give for each argument, as it is given there.
#[derive(Clone, Copy)]
pub(crate) struct RunValues<'a> {
    pub(crate) rom: Option<&'a str>,
    pub(crate) cycles: Option<&'a str>,
    pub(crate) recording: Option<&'a str>,
    pub(crate) load: Option<&'a str>,
    pub(crate) save: Option<&'a str>,
    pub(crate) frames: Option<&'a str>,
    pub(crate) sound: Option<&'a str>,
    pub(crate) journal: Option<&'a str>,
    pub(crate) workers: Option<&'a str>,
    pub(crate) pal: Option<&'a str>,
}
