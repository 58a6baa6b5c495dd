// A score file that the check accepts.
ghost use Rattle.score.specs.File.{Accepted};

// Its bytes. Whoever has checked a file hands it on as this.
#[derive(Clone, Copy)]
pub struct AcceptedFile<'a> {
    pub bytes: &'a [u8],
    ghost accepted: { Accepted bytes.now },
}
