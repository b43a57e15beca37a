//! What a worker is told when it asks for a turn.
use hub_terms::Why;
use px_base::Order;
use std::marker::Model;

/// An order for a worker, made by `Hub::give` alone. It has a frame: its epoch, its round and its updates are within the limits
/// of one.
#[derive(Drop)]
pub struct Given {
    worker: u32,
    order: Order,
}

impl Model for Given {
    ghost use Rattle.recovery.specs.Givens.{GivenState, IsGiven};

    ghost Value = { GivenState };

    ghost view = { λ g. record { worker = g.worker; order = g.order } };

    ghost invariant = { λ g. IsGiven g.order };
}

impl Given {
    ghost use Rattle.std.specs.Prelude.{◌≡◌};
    ghost use Rattle.recovery.specs.Givens.{IsGiven};

    /// The order for the worker.
    pub(crate) fn new(worker: u32, order: Order) -> Given
        requires { IsGiven order }
        ensures worker { result.worker ≡ worker }
        ensures order { result.order ≡ order }
    {
        Given { worker, order }
    }

    /// The worker that the order is for.
    pub fn worker(&self) -> u32
        ensures { result ≡ self.now.worker }
    {
        self.worker
    }

    /// The order.
    pub fn order(&self) -> &Order
        ensures order { result.now ≡ self.now.order }
        ensures fits { IsGiven self.now.order }
    {
        &self.order
    }

    /// The order, taken out.
    pub fn into_order(self) -> Order
        ensures order { result ≡ self.order }
        ensures fits { IsGiven result }
    {
        let Given { worker: _, order } = self;
        order
    }
}

/// What a worker that asks for a turn is told.
#[derive(Drop)]
pub enum Turn {
    /// To answer this order.
    Work(Given),
    /// To ask again later.
    Wait,
    /// All is quiet, and each worker has reported.
    Done,
    /// The run stops, for this reason.
    Stop(Why),
}
