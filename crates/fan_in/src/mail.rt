// By mail: each shard has a lane and an owner, and each feed has a sender on every lane.
pub(crate) mod coming_back;
pub(crate) mod gather;
pub(crate) mod message;
pub(crate) mod outbox;
pub(crate) mod owner;
pub(crate) mod owner_job;
pub(crate) mod post;
pub(crate) mod send_out;
pub(crate) mod settling;
