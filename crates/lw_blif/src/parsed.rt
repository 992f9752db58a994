use lw_fixed::Micros;
use lw_net::Network;
use lw_pool::Frame;

/// A model. The network is its combinational part, in which the outputs of latches are inputs, and
/// what the latches read are outputs. Each input of the network has a start.
#[derive(Drop)]
pub struct Parsed {
    pub network: Network,
    pub frame: Frame,
    pub starts: Micros,
}
