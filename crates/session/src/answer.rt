// What the calls of a session give.
use refusals::Refusal;
use steps::verdict::Verdict;
use terms::normal::Normal;

// What a post that is taken tells: so far only that it was.
#[derive(Clone, Copy, Debug, PartialEq, Eq)]
pub struct Receipt {}

// What any call of a session gives where it is not refused. Opening, marking and returning are done; a post is posted, a
// query told, an image shown.
#[derive(Clone, Copy)]
pub enum Reply<K> {
    Done,
    Posted,
    Told(Verdict),
    Image(Normal<K>),
}

// What any call of a session gives: a reply, or why it is refused.
pub type Answer<K> = Result<Reply<K>, Refusal>;
