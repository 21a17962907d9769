// The types of a platform's history, and of the objects that threads share.
use crate::sharing::Sharing;
use cargo_model::Cargo;
pub use cargo_net::TlmLaw;
use hop_object::Hop;
use one_history::{History, Note, ObjectSeat};
use payload_pool::Pool;
use region_object::Region;
use route_plan::Plan;
use shared_object::Shared;
use tlm_types::Content;

/// A history of a platform.
pub type PlatHistory = History<Content, Plan, TlmLaw>;

/// A note of such a history.
pub type PlatNote = Note<Content, Plan, TlmLaw>;

/// The seat of an object of such a history.
pub type PlatSeat = ObjectSeat<Content, Plan, TlmLaw>;

/// A memory of the history and the tokens that N names, as S keeps it.
pub type SharedMemory<N, S> = Shared<Region, Plan, TlmLaw, N, <S as Sharing<N>>::Memory>;

/// A hop, as S keeps it.
pub type SharedHop<N, S> = Shared<Hop<Cargo>, Plan, TlmLaw, N, <S as Sharing<N>>::Hop>;

/// A pool, as S keeps it.
pub type SharedPool<N, S> = Shared<Pool, Plan, TlmLaw, N, <S as Sharing<N>>::Pool>;
